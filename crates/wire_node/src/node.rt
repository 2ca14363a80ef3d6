//! A node of bytes.
ghost use Rattle.std.specs.Prelude.{◌≡◌, ◌⊎◌, false, IfErr, IfOk, IsTrue};
ghost use Rattle.protocol.specs.Peers.{are_peers};
ghost use Rattle.wire_node.specs.Node.{Starts};

use crate::asking::Asking;
use crate::connections::Connection;
use crate::engine::Engine;
use crate::error::WireError;
use crate::limits::WireLimits;
use crate::opening::{beside, first_mail, start_core};
use crate::step::{Record, Unrecorded};
use node_core::{PlumCore, Telling};
use node_names::{Listed, NodeName, Origin};
use protocol::{Out, are_peers};
use std::alloc::{Allocator, Global};
use std::marker::Model;

/// For how many names it keeps bytes at first before it looks for those for whom nothing waits.
pub(crate) const NAMES: usize = 16;

/// A node of bytes: a core, what waits to go out for each name, what was delivered, and what came over connections. Its
/// steps are noted by an `R`.
///
/// It is called by one thread at a time, and never waits.
#[derive(Drop)]
pub struct WireNode<A: Allocator = Global, R: Record<A> + Drop = Unrecorded> {
    pub(crate) engine: Engine<A, R>,
    pub(crate) connections: Vec<Connection<A>, A>,
    /// The number of the last connection that was accepted.
    pub(crate) numbered: u64,
    pub(crate) ticks: u64,
    pub(crate) asking: Asking<A>,
}

impl<A: Allocator, R: Record<A> + Drop> Model for WireNode<A, R> {
    ghost use Rattle.wire_node.specs.Node.{NodeState};
    ghost use Rattle.std.specs.FinSet as set;
    ghost use Rattle.std.specs.Coded.{codes};
    ghost use Rattle.node_names.specs.Order.{id_cmp};
    ghost use Rattle.node_names.specs.contracts.ids.MsgId as id;

    ghost Value = { NodeState };

    ghost coded = { Prim.hlevel (codes, set.code {R = id_cmp} id.the_row.coded) };

    ghost view = { λ n. record {
      engine = n.engine;
      connections = n.connections.items;
      numbered = n.numbered;
      ticks = n.ticks;
      asking = n.asking;
    } };
}

impl<A: Allocator + Copy, R: Record<A> + Drop> WireNode<A, R> {
    /// Starts a node with these peers as its active view, and a contact, to whom it sends JOIN. Its steps are noted by
    /// `notes`. `BadPeers`: the peers and the contact do not fit together.
    pub fn start(
        alloc: A,
        me: Origin,
        limits: WireLimits,
        peers: &[NodeName],
        contact: Option<NodeName>,
        mut notes: R,
    ) -> Result<WireNode<A, R>, WireError>
        ensures ok { IfOk result
            (λ node. Starts me limits.core limits.waiting peers.now contact (R.noted notes) node) }
        ensures why { IfErr result (λ e.
            ((e ≡ WireError.BadPeers) × (are_peers limits.core me.name peers.now contact ≡ false))
            ⊎ ((e ≡ WireError.OutOfMemory) × IsTrue (are_peers limits.core me.name peers.now contact))) }
    {
        if !are_peers(&limits.core, &me.name, peers, &contact) {
            return Err(WireError::BadPeers);
        }
        let mut out = Out::new(alloc);
        let core = start_core(alloc, me, &limits, peers, contact, &mut out)?;
        let mail = first_mail(alloc, &out, &mut notes);
        let (core, entries) = beside(core, mail)?;
        Ok(WireNode {
            engine: Engine {
                core,
                entries,
                pending: Listed::new(alloc),
                record: notes,
                telling: Telling::new(alloc),
                lost: Listed::new(alloc),
                limit: limits.waiting,
                is_behind: false,
                names: NAMES,
            },
            connections: Vec::new(alloc),
            numbered: 0,
            ticks: 0,
            asking: Asking::new(alloc),
        })
    }

    /// The core, to be read.
    pub fn core(&self) -> &PlumCore<A>
        ensures { result.now ≡ self.now.engine.machine.core }
    {
        self.engine.core()
    }

    /// What notes the steps, to be read.
    pub fn record(&self) -> &R
        ensures { R.noted result.now ≡ self.now.engine.machine.noted }
    {
        self.engine.record()
    }

    /// Whether more bytes than the limit wait for a name that is still up: after the last step it could not be taken
    /// down, because the step of that was refused. The next step tries again.
    pub fn is_behind(&self) -> bool
        ensures { result ≡ self.now.engine.is_behind }
    {
        self.engine.is_behind()
    }

    /// How many ticks were made.
    pub fn ticks(&self) -> u64
        ensures { result ≡ self.now.ticks }
    {
        self.ticks
    }
}
