//! The nodes of a group, as they are now.
ghost use Rattle.std.specs.Prelude.{◌≡◌, ◌↔◌, ◌<◌, ◌≤◌, [], false, length, IfErr, IfOk, IfSome, OnErr, OnOk};
ghost use Rattle.std.specs.Map.{lookup};
ghost use Rattle.indexmap.specs.IndexMap.{spare};
ghost use Rattle.node_names.specs.Same.{same_name};
ghost use Rattle.protocol.specs.SameNames.{SameNames};
ghost use Rattle.protocol.specs.Stimulus.{lent};
ghost use Rattle.run_check.specs.Following.{Puts, Steps};
ghost use Rattle.run_check.specs.Refusals.{IsCoreRefusal, IsNoStep, IsStale, refusal_of};

use crate::error::CheckError;
use crate::flying::Flying;
use frames::Frame;
use indexmap::IndexMap;
use node_names::{NodeName, Origin};
use protocol::{Core, CoreError, Delivery, Out, Prepared, StimulusRef};
use std::alloc::Global;
use std::hash::{BuildHasherDefault, FoldHasher};
use world::NodeState;

/// What a step sent and delivered, and whether it changed the active view as a set.
#[derive(Drop)]
pub(crate) struct Outcome {
    pub(crate) sends: Vec<(NodeName, Frame)>,
    pub(crate) given: Vec<Delivery>,
    pub(crate) moved: bool,
}

/// The nodes of a group, each under its name.
#[derive(Drop)]
pub(crate) struct Nodes<C> {
    pub(crate) map: IndexMap<NodeName, NodeState<C>, BuildHasherDefault<FoldHasher>, Global>,
}

/// Why a core refuses.
fn refused(error: CoreError) -> CheckError
    ensures { result ≡ refusal_of error }
{
    match error {
        CoreError::OutOfMemory => CheckError::OutOfMemory,
        error => CheckError::Refused(error),
    }
}

impl<C: Drop> Nodes<C> {
    /// Makes a group without nodes.
    pub(crate) fn new(alloc: Global) -> Nodes<C>
        ensures { result.map.entries ≡ [] }
    {
        Nodes {
            map: IndexMap::new(alloc),
        }
    }

    /// Rejects a run whose incarnation does not exceed that of its name's last start.
    pub(crate) fn judge(&self, run: &Origin) -> Result<(), CheckError>
        ensures stale { IfErr result (IsStale self.now.map.entries run.now) }
        ensures fresh { OnOk result (IfSome (lookup (same_name run.now.name) self.now.map.entries)
            (λ node. node.highest.0 < run.now.incarnation.0)) }
    {
        match self.map.get(&run.name) {
            Some(node) if node.highest >= run.incarnation => Err(CheckError::Stale(node.highest)),
            _ => Ok(()),
        }
    }

    /// Puts a node in the place of the one of its name. If memory runs out, nothing changes.
    pub(crate) fn put(&mut self, node: NodeState<C>) -> Result<(), CheckError>
        ensures refused { IfErr result (λ e. e ≡ CheckError.OutOfMemory) }
        ensures err { OnErr result (self.new.map.entries ≡ self.old.map.entries) }
        ensures ok { OnOk result (Puts self.old.map.entries node self.new.map.entries) }
    {
        self.map.insert(node.name, node)?;
        Ok(())
    }
}

impl<C: Core<Global, Note = Frame>> Nodes<C> {
    /// Has the core of this run take a stimulus, and makes room for what it sends. If it is refused, nothing changes.
    pub(crate) fn step(
        &mut self,
        alloc: Global,
        run: &Origin,
        stimulus: &StimulusRef<'_, Frame>,
        flying: &mut Flying,
    ) -> Result<Outcome, CheckError>
        ensures refused { IfErr result (IsNoStep C.is_spent self.old.map.entries run.now (lent stimulus.now)) }
        ensures err { OnErr result (self.new.map.entries ≡ self.old.map.entries) }
        ensures steps { IfOk result (λ did. Steps C.state C.starts C.steps self.old.map.entries run.now
            (lent stimulus.now) did.sends.items did.given.items did.moved self.new.map.entries) }
        ensures packets { flying.new.map.entries ≡ flying.old.map.entries }
        ensures room { IfOk result (λ did. length did.sends.items ≤ spare flying.new.map) }
    {
        let Some(node) = self.map.get_mut(&run.name) else {
            return Err(CheckError::NotRunning);
        };
        if node.highest != run.incarnation {
            return Err(CheckError::NotRunning);
        }
        let Some(core) = &mut node.core else {
            return Err(CheckError::NotRunning);
        };
        step_core(alloc, core, stimulus, flying)
    }
}

/// Has a core take a stimulus, and makes room for what it sends. If it is refused, nothing changes.
fn step_core<C: Core<Global, Note = Frame>>(
    alloc: Global,
    core: &mut C,
    stimulus: &StimulusRef<'_, Frame>,
    flying: &mut Flying,
) -> Result<Outcome, CheckError>
    ensures refused { IfErr result (IsCoreRefusal C.is_spent core.old (lent stimulus.now)) }
    ensures err { OnErr result (core.new ≡ core.old) }
    ensures stepped { IfOk result
        (λ did. C.steps core.old (lent stimulus.now) did.sends.items did.given.items core.new) }
    ensures moves { IfOk result
        (λ did. (did.moved ≡ false) ↔ SameNames (C.state core.old).active (C.state core.new).active) }
    ensures packets { flying.new.map.entries ≡ flying.old.map.entries }
    ensures room { IfOk result (λ did. length did.sends.items ≤ spare flying.new.map) }
{
    let mut out = Out::new(alloc);
    let moved = match core.prepare(stimulus, &mut out) {
        Ok(Prepared { turn, moved }) => {
            flying.reserve(out.sends.len())?;
            core.advance(stimulus, turn)?;
            moved
        }
        Err(error) => return Err(refused(error)),
    };
    let Out { sends, deliveries } = out;
    Ok(Outcome {
        sends: sends.into_vec(),
        given: deliveries.into_vec(),
        moved,
    })
}
