//! The calls that make a node of bytes step.
ghost use Rattle.std.specs.Prelude.{◌≡◌, ◌+◌, ◌%◌, ◌^◌, IfErr, IfOk, OnErr, OnOk, length, nat_eq, not};
ghost use Rattle.wire_node.specs.Moving.{Broadcasts, GoesAway, Moves};
ghost use Rattle.wire_node.specs.Node.{Ticks};
ghost use Rattle.wire_node.specs.Refusing.{IsAskRefusal, IsRefusal, IsTickRefusal};
ghost use Rattle.wire_node.specs.Ticking.{AsksInPart, AsksOn, IsCutShort, LeavesAsking};

use crate::asking::ask_on;
use crate::error::WireError;
use crate::node::WireNode;
use crate::step::Record;
use crate::ticking::make_tick;
use bytes::Bytes;
use node_names::{Dice, MsgId, NodeName};
use protocol::StimulusOf;
use std::alloc::Allocator;

impl<A: Allocator + Copy, R: Record<A> + Drop> WireNode<A, R> {
    /// Broadcasts a message, and delivers it to its own caller too. The payload is shared with whoever else has it.
    /// Returns the message's id. A name for whom too much waits then goes down, by dice of zeros.
    pub fn broadcast(&mut self, payload: Bytes<A>) -> Result<MsgId, WireError>
        ensures ok { IfOk result (λ id. Broadcasts self.old.engine payload id self.new.engine) }
        ensures rest { self.new ≡ record self.old { engine = self.new.engine } }
        ensures err { OnErr result (self.new ≡ self.old) }
        ensures why { IfErr result (IsRefusal self.old.engine.machine.core (StimulusOf.Broadcast payload)) }
    {
        match self.engine.broadcast(payload) {
            Ok(id) => Ok(id),
            Err(error) => Err(WireError::of_core(error)),
        }
    }

    /// Tells the node that the name cannot be reached: the core is told a Down, and what waits for it is dropped.
    pub fn unreachable(&mut self, name: NodeName, dice: &Dice) -> Result<(), WireError>
        ensures ok { OnOk result (GoesAway self.old.engine name dice.now self.new.engine) }
        ensures rest { self.new ≡ record self.old { engine = self.new.engine } }
        ensures err { OnErr result (self.new ≡ self.old) }
        ensures why { IfErr result (IsRefusal self.old.engine.machine.core (StimulusOf.Down name dice.now)) }
    {
        if let Err(error) = self.engine.take_down(name, dice) {
            return Err(WireError::of_core(error));
        }
        Ok(())
    }

    /// Has the node join by the contact, as at a start: JOIN goes there, unless the contact is the node itself or
    /// active. A name for whom too much waits then goes down.
    pub fn join(&mut self, contact: NodeName, dice: &Dice) -> Result<(), WireError>
        ensures ok { OnOk result (Moves self.old.engine (StimulusOf.Join contact) dice.now self.new.engine) }
        ensures rest { self.new ≡ record self.old { engine = self.new.engine } }
        ensures err { OnErr result (self.new ≡ self.old) }
        ensures why { IfErr result (IsRefusal self.old.engine.machine.core (StimulusOf.Join contact)) }
    {
        if let Err(error) = self.engine.step(&StimulusOf::Join(contact), dice) {
            return Err(WireError::of_core(error));
        }
        Ok(())
    }

    /// Makes a tick: sends what is queued, asks for messages that did not come, and at every tenth tick shuffles.
    ///
    /// A turn of asking begins at a fifth tick, for what was announced before the turn before ended and did not come.
    /// At most 128 messages that were asked for may be on their way, so that the answers fit into what may wait for a
    /// name; the others follow at the next ticks, as these come, or by `ask_on`. At every 25th tick what did not come
    /// is taken for lost.
    ///
    /// If a step is refused, those before it are made, and the tick does not count: call again.
    pub fn tick(&mut self, dice: &Dice) -> Result<(), WireError>
        ensures ok { OnOk result (Ticks self.old dice.now self.new) }
        ensures err { OnErr result (self.new ≡ record self.old { engine = self.new.engine; asking = self.new.asking }) }
        ensures made { OnErr result (IsCutShort self.old.engine dice.now self.new.engine) }
        ensures left { OnErr result (LeavesAsking self.old.engine self.old.asking
            ((self.old.ticks + 1) % 2 ^ 64)
            dice.now self.new.engine self.new.asking) }
        ensures why { IfErr result (IsTickRefusal self.new.engine.machine.core dice.now) }
    {
        let ticks = self.ticks.wrapping_add(1);
        if let Err(error) = make_tick(&mut self.engine, &mut self.asking, ticks, dice) {
            return Err(WireError::of_core(error));
        }
        self.ticks = ticks;
        Ok(())
    }

    /// Whether more is to be asked for, once what was asked for comes.
    pub fn is_asking(&self) -> bool
        ensures { result ≡ not (nat_eq (length self.now.asking.due) 0) }
    {
        !self.asking.due.is_empty()
    }

    /// Goes on asking between ticks, as messages come that were asked for: for as many more as may be on their way. A
    /// driver calls it when frames came and more is to be asked for; without these calls a tick asks for 128 at most.
    ///
    /// If a step is refused, those before it are made: call again.
    pub fn ask_on(&mut self, dice: &Dice) -> Result<(), WireError>
        ensures ok { OnOk result (AsksOn self.old.engine self.old.asking dice.now self.new.engine self.new.asking) }
        ensures rest { self.new ≡ record self.old { engine = self.new.engine; asking = self.new.asking } }
        ensures made { OnErr result
            (AsksInPart self.old.engine self.old.asking dice.now self.new.engine self.new.asking) }
        ensures why { IfErr result (IsAskRefusal self.new.engine.machine.core) }
    {
        if let Err(error) = ask_on(&mut self.engine, &mut self.asking, dice) {
            return Err(WireError::of_core(error));
        }
        Ok(())
    }
}
