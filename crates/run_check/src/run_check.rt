//! The check of a group's run.
ghost use Rattle.std.specs.Prelude.{◌≡◌, [], List, IfErr, IfOk, OnErr, OnOk, length, reverse};
ghost use Rattle.world.specs.Entry.{Entry};
ghost use Rattle.world.specs.Group.{Group};
ghost use Rattle.world.specs.Headline.{Headline};
ghost use Rattle.world.specs.declared.event.EventOf.TheVariants.{Start};
ghost use Rattle.frames.specs.Content.{frame_content};
ghost use Rattle.frames.specs.Frame.{Frame as Said};
ghost use Rattle.run_check.specs.Accepting.{Accepted, AcceptsAll, IsOneRun};
ghost use Rattle.run_check.specs.Following.{Begins, Follows, Goes, GoesOn, TakesOn};
ghost use Rattle.run_check.specs.Refusals.{IsRefused, IsNoStart, has_packet};

use crate::error::CheckError;
use crate::flying::Flying;
use crate::nodes::{Nodes, Outcome};
use frames::Frame;
use node_names::{Limits, NodeName, Origin};
use protocol::{Core, Delivery, Out, Stimulus, StimulusOf, are_peers};
use std::alloc::Global;
use std::marker::Model;
use world::NodeState;

/// A group of nodes that is followed as its nodes start and take one stimulus after another.
#[derive(Drop)]
pub struct RunCheck<C> {
    alloc: Global,
    limits: Limits,
    nodes: Nodes<C>,
    flying: Flying,
}

impl<C> Model for RunCheck<C> {
    ghost use Rattle.run_check.specs.Following.{Kept};

    ghost Value = { Kept C };

    ghost view = { λ check. record {
      limits = check.limits;
      nodes = check.nodes.map.entries;
      packets = check.flying.map.entries;
    } };
}

impl<C: Core<Global, Note = Frame>> RunCheck<C> {
    /// Makes a check of a group in which nothing has happened yet.
    pub fn new(alloc: Global, limits: Limits) -> RunCheck<C>
        ensures limits { result.limits ≡ limits }
        ensures follows { Follows C.state C.starts C.steps result [] (record { nodes = []; sent = []; flight = [] }) }
    {
        RunCheck {
            alloc,
            limits,
            nodes: Nodes::new(alloc),
            flying: Flying::new(alloc),
        }
    }

    /// How many frames were sent and have not arrived.
    pub fn flying(&self) -> usize
        ensures { result ≡ length self.now.packets }
    {
        self.flying.len()
    }

    /// Whether a frame that arrives by this stimulus was sent. `true` for a stimulus that is no arrival.
    pub fn is_sent(&self, stimulus: &Stimulus<Frame>) -> bool
        ensures { result ≡ has_packet self.now.packets stimulus.now }
    {
        match stimulus {
            StimulusOf::Arrive { sender, note, .. } => self.flying.has(*sender, note),
            _ => true,
        }
    }

    /// Starts a run, with these peers as its active view. An earlier run of its name is over. If it is refused, nothing
    /// changes.
    pub fn start(
        &mut self,
        run: Origin,
        peers: &[NodeName],
        contact: Option<NodeName>,
    ) -> Result<(), CheckError>
        ensures limits { self.new.limits ≡ self.old.limits }
        ensures refused { IfErr result (IsNoStart self.old run peers.now contact) }
        ensures err { OnErr result (self.new ≡ self.old) }
        // All that it sends is kept.
        ensures begins { OnOk result (Begins C.state C.starts C.steps self.old run peers.now contact self.new) }
        ensures goes_on { (past : List Entry) (group : Group C Said)
            → Follows C.state C.starts C.steps self.old past group
            → OnOk result ((entry : Entry)
            × (entry.event ≡ Start run.name run.incarnation peers.now contact)
            × GoesOn C.state C.starts C.steps group past entry self.new) }
    {
        self.nodes.judge(&run)?;
        if !are_peers(&self.limits, &run.name, peers, &contact) {
            return Err(CheckError::BadPeers);
        }
        let mut out = Out::new(self.alloc);
        let Ok(core) = C::start(self.alloc, run, self.limits, peers, contact, &mut out) else {
            return Err(CheckError::OutOfMemory);
        };
        let Out { sends, .. } = out;
        self.flying.reserve(sends.len())?;
        self.nodes.put(NodeState {
            name: run.name,
            highest: run.incarnation,
            core: Some(core),
        })?;
        self.flying.post(&run, sends.into_vec());
        Ok(())
    }

    /// Has a run take a stimulus, and returns what it delivers by that. A frame arrives once, and only once it was
    /// sent. If it is refused, nothing changes.
    pub fn take(
        &mut self,
        run: &Origin,
        stimulus: &Stimulus<Frame>,
    ) -> Result<Vec<Delivery>, CheckError>
        ensures limits { self.new.limits ≡ self.old.limits }
        ensures refused { IfErr result (IsRefused C.is_spent self.old run.now stimulus.now) }
        ensures err { OnErr result (self.new ≡ self.old) }
        // The core of just this run steps. What arrives is kept no longer, and all that is sent is.
        ensures goes { IfOk result
            (λ given. Goes C.state C.starts C.steps self.old run.now stimulus.now given.items self.new) }
        ensures goes_on { (past : List Entry) (group : Group C Said)
            → Follows C.state C.starts C.steps self.old past group
            → IfOk result
            (λ given. TakesOn C.state C.starts C.steps group past run.now.name stimulus.now given.items self.new) }
    {
        let lent = stimulus.as_ref();
        self.flying.judge(&run.name, &lent)?;
        let did = self.nodes.step(self.alloc, run, &lent, &mut self.flying)?;
        let Outcome { sends, given, .. } = did;
        self.flying.receive(&lent);
        self.flying.post(run, sends);
        Ok(given)
    }

    /// Tells a caller's proof that what was accepted from the beginning on is one run of a group, in which just that
    /// happened, and that of this group all that is in flight is kept. At run time it does nothing.
    pub fn is_one_run(&self)
        ensures { (all : List Accepted)
            → AcceptsAll C.state C.starts C.steps
            (record { limits = self.now.limits; nodes = []; packets = [] }) all self.now
            → IsOneRun C.state C.starts C.steps all self.now }
    {
        let _limits = self.limits;
    }

    /// Tells a caller's proof what holds of the run so far. At run time it does nothing.
    pub fn headline(&self)
        ensures { (past : List Entry) (group : Group C Said)
            → Follows C.state C.starts C.steps self.now past group
            → Headline C.state frame_content (record { limits = self.now.limits; group = group; log = reverse past }) }
    {
        let _limits = self.limits;
    }
}
