//! What a node asks for: messages that were announced and did not come.
ghost use Rattle.std.specs.Prelude.{◌≡◌, ◌<◌, ◌≤◌, ◌&&◌, ◌⊎◌, ℕ, List, [], IfErr, IfOk, OnErr};
ghost use Rattle.std.specs.Prelude.{OnOk, length, map, nat_eq, take, if◌then◌else◌};
ghost use Rattle.node_names.specs.declared.ids.MsgId.{MsgId as Id};
ghost use Rattle.wire_node.specs.Moving.{MovesAll, firing};
ghost use Rattle.wire_node.specs.Refusing.{IsAskRefusal, refusal_of};
ghost use Rattle.wire_node.specs.Ticking.{Asks, AsksAt, AsksInPart, AsksOn, IsAskedFor, IsDueStill};
ghost use Rattle.wire_node.specs.Ticking.{armed_of, awaited_at, is_turn, lacked_of};

use crate::connections::drop_front;
use crate::engine::Engine;
use crate::step::Record;
use node_names::{Dice, MsgId};
use protocol::{CoreError, StimulusOf};
use std::alloc::{AllocError, Allocator};
use std::marker::Model;
use std::mem;

/// A turn of asking begins at a fifth tick, so that a message has that long to come by itself: one that is asked for
/// while it is on its way comes twice, and changes the tree. With 64 nodes on one thread a message took several ticks
/// from end to end, so that asking at each tick asked for nearly all. Who wants to ask sooner makes shorter ticks.
const ASK_EVERY: u64 = 5;
/// How many messages that were asked for may be on their way. Their answers, of 32 KiB at most, then take half of what
/// may wait for a name, wherever they wait. Without this limit, where several nodes had broadcast 600 long messages at
/// once, each asked for 448 in one tick, and names went down under the answers.
const MOST_ASKED: usize = 128;
/// After at most so many ticks what was asked for and did not come is taken for lost: whoever announced it may have
/// forgotten it.
const LOST_AFTER: u64 = 25;

/// Messages that were announced and did not come.
#[derive(Drop)]
pub(crate) struct Asking<A: Allocator> {
    /// Those whose timers were armed when the last turn ended.
    pub(crate) waited: Vec<MsgId, A>,
    /// Those that are to be asked for.
    pub(crate) due: Vec<MsgId, A>,
    /// Those that were asked for, and may be on their way.
    pub(crate) asked: Vec<MsgId, A>,
}

impl<A: Allocator> Model for Asking<A> {
    ghost use Rattle.wire_node.specs.Ticking.{Asking};

    ghost Value = { Asking };

    ghost view = { λ a. record { waited = a.waited.items; due = a.due.items; asked = a.asked.items } };
}

impl<A: Allocator + Copy> Asking<A> {
    /// Nothing is to be asked for.
    pub(crate) fn new(alloc: A) -> Asking<A>
        ensures { result ≡ record { waited = []; due = []; asked = [] } }
    {
        Asking {
            waited: Vec::new(alloc),
            due: Vec::new(alloc),
            asked: Vec::new(alloc),
        }
    }
}

/// The first of these ids whose timers are armed, `most` at most, and behind how many of the ids the others begin.
fn front_armed<A: Allocator + Copy, R: Record<A> + Drop>(
    engine: &Engine<A, R>,
    ids: &[MsgId],
    most: usize,
) -> Result<(Vec<MsgId, A>, usize), AllocError>
    ensures within { IfOk result (λ front. front.1 ≤ length ids.now) }
    ensures armed { IfOk result (λ front. front.0.items ≡ armed_of engine.now (take front.1 ids.now)) }
    ensures few { IfOk result (λ front. length front.0.items ≤ most) }
    ensures many { IfOk result (λ front. length front.0.items < most → front.1 ≡ length ids.now) }
{
    let mut armed = Vec::new(engine.alloc());
    for (place, id) in ids.iter().enumerate() {
        if armed.len() >= most {
            return Ok((armed, place));
        }
        if engine.is_armed(id) {
            armed.push(*id)?;
        }
    }
    Ok((armed, ids.len()))
}

/// Those of these ids whose messages did not come.
fn lacked_of<A: Allocator + Copy, R: Record<A> + Drop>(
    engine: &Engine<A, R>,
    ids: &[MsgId],
) -> Result<Vec<MsgId, A>, AllocError>
    ensures { IfOk result (λ lacked. lacked.items ≡ lacked_of engine.now ids.now) }
{
    let mut lacked = Vec::new(engine.alloc());
    for id in ids {
        if !engine.has(id) {
            lacked.push(*id)?;
        }
    }
    Ok(lacked)
}

/// Those of the messages that were asked for which may be on their way.
fn awaited_of<A: Allocator + Copy, R: Record<A> + Drop>(
    engine: &Engine<A, R>,
    asked: &[MsgId],
    ticks: u64,
) -> Result<Vec<MsgId, A>, AllocError>
    ensures { IfOk result (λ awaited. awaited.items ≡ awaited_at engine.now asked.now ticks) }
{
    if ticks % LOST_AFTER == 0 {
        return Ok(Vec::new(engine.alloc()));
    }
    lacked_of(engine, asked)
}

/// Lets the timers of these ids fire. If one is refused, those before have fired.
fn fire_each<A: Allocator + Copy, R: Record<A> + Drop>(
    engine: &mut Engine<A, R>,
    ids: &[MsgId],
    dice: &Dice,
) -> Result<(), CoreError>
    ensures ok { OnOk result (MovesAll engine.old (map (firing dice.now) ids.now) engine.new) }
    ensures err { OnErr result
        ((count : ℕ) × MovesAll engine.old (map (firing dice.now) (take count ids.now)) engine.new) }
    ensures why { IfErr result (λ e. IsAskRefusal engine.new.machine.core (refusal_of e)) }
{
    for id in ids {
        engine.step(&StimulusOf::Fire(*id), dice)?;
    }
    Ok(())
}

/// Asks for the first of what is due, as much as may be on its way beside what is. If a step is refused, those before
/// are made, and the lists stay.
fn ask_front<A: Allocator + Copy, R: Record<A> + Drop>(
    engine: &mut Engine<A, R>,
    due: &mut Vec<MsgId, A>,
    asked: &mut Vec<MsgId, A>,
    dice: &Dice,
) -> Result<(), CoreError>
    ensures ok { OnOk result
        (Asks engine.old due.old.items asked.old.items dice.now engine.new due.new.items asked.new.items) }
    ensures err { OnErr result ((count : ℕ)
        × MovesAll engine.old (map (firing dice.now) (take count (armed_of engine.old due.old.items))) engine.new) }
    ensures kept { OnErr result ((due.new.items ≡ due.old.items) × (asked.new.items ≡ asked.old.items)) }
    ensures why { IfErr result (λ e. IsAskRefusal engine.new.machine.core (refusal_of e)) }
{
    let most = MOST_ASKED.saturating_sub(asked.len());
    let (armed, count) = front_armed(engine, due.as_slice(), most)?;
    let before = asked.len();
    asked.extend_from_slice(armed.as_slice())?;
    if let Err(error) = fire_each(engine, armed.as_slice(), dice) {
        asked.truncate(before);
        return Err(error);
    }
    drop_front(due, count);
    Ok(())
}

/// Whether a turn of asking begins.
fn is_turn<A: Allocator>(asking: &Asking<A>, ticks: u64) -> bool
    ensures { result ≡ is_turn asking.now ticks }
{
    ticks % ASK_EVERY == 0 && asking.due.is_empty()
}

/// As a turn begins, what waited since the last one is due.
fn begin<A: Allocator + Copy>(alloc: A, asking: &mut Asking<A>, is_turn: bool)
    ensures { asking.new
        ≡ (if is_turn then record { waited = []; due = asking.old.waited; asked = asking.old.asked } else asking.old) }
{
    if is_turn {
        asking.due = mem::replace(&mut asking.waited, Vec::new(alloc));
    }
}

/// At the end of a turn that ended at once notes what waits for the next.
fn end<A: Allocator + Copy, R: Record<A> + Drop>(
    engine: &Engine<A, R>,
    asking: &mut Asking<A>,
    is_turn: bool,
) -> Result<(), AllocError>
    ensures ok { OnOk result (asking.new ≡ record asking.old {
      waited = (if is_turn && nat_eq (length asking.old.due) 0
          then engine.now.machine.core.gossip.missing.timers
          else asking.old.waited);
    }) }
    ensures err { OnErr result (asking.new ≡ asking.old) }
{
    if is_turn && asking.due.is_empty() {
        asking.waited = engine.armed()?;
    }
    Ok(())
}

/// Asks for the first of what is due, but for what may be on its way. If a step is refused, those before are made, and
/// what is due stays so.
fn ask_for<A: Allocator + Copy, R: Record<A> + Drop>(
    engine: &mut Engine<A, R>,
    asking: &mut Asking<A>,
    ticks: u64,
    dice: &Dice,
) -> Result<(), CoreError>
    ensures ok { OnOk result (Asks engine.old asking.old.due
        (awaited_at engine.old asking.old.asked ticks) dice.now engine.new asking.new.due asking.new.asked) }
    ensures rest { OnOk result (asking.new.waited ≡ asking.old.waited) }
    ensures err { OnErr result ((count : ℕ)
        × MovesAll engine.old (map (firing dice.now) (take count (armed_of engine.old asking.old.due))) engine.new) }
    ensures kept { OnErr result ((asking.new.due ≡ asking.old.due)
        × (asking.new.waited ≡ asking.old.waited)
        × ((asking.new.asked ≡ asking.old.asked)
        ⊎ (asking.new.asked ≡ awaited_at engine.old asking.old.asked ticks))) }
    ensures why { IfErr result (λ e. IsAskRefusal engine.new.machine.core (refusal_of e)) }
{
    asking.asked = awaited_of(engine, asking.asked.as_slice(), ticks)?;
    ask_front(engine, &mut asking.due, &mut asking.asked, dice)
}

/// Asks for what did not come. If a step is refused, those before are made, and nothing that is due or waits is
/// forgotten.
pub(crate) fn ask<A: Allocator + Copy, R: Record<A> + Drop>(
    engine: &mut Engine<A, R>,
    asking: &mut Asking<A>,
    ticks: u64,
    dice: &Dice,
) -> Result<(), CoreError>
    ensures ok { OnOk result (AsksAt engine.old asking.old ticks dice.now engine.new asking.new) }
    ensures err { OnErr result ((ids : List Id) × MovesAll engine.old (map (firing dice.now) ids) engine.new) }
    ensures left { OnErr result (IsDueStill engine.old asking.old ticks dice.now engine.new asking.new
        ⊎ IsAskedFor engine.old asking.old ticks dice.now engine.new asking.new) }
    ensures why { IfErr result (λ e. IsAskRefusal engine.new.machine.core (refusal_of e)) }
{
    let is_turn = is_turn(asking, ticks);
    begin(engine.alloc(), asking, is_turn);
    ask_for(engine, asking, ticks, dice)?;
    end(engine, asking, is_turn)?;
    Ok(())
}

/// Goes on asking between ticks: for the first of what is due, but for what may be on its way. So what came makes room
/// for more at once, and a node that lacks much has it as soon as the others can send it. If a step is refused, those
/// before are made, and what is due stays so.
pub(crate) fn ask_on<A: Allocator + Copy, R: Record<A> + Drop>(
    engine: &mut Engine<A, R>,
    asking: &mut Asking<A>,
    dice: &Dice,
) -> Result<(), CoreError>
    ensures ok { OnOk result (AsksOn engine.old asking.old dice.now engine.new asking.new) }
    ensures err { OnErr result (AsksInPart engine.old asking.old dice.now engine.new asking.new) }
    ensures why { IfErr result (λ e. IsAskRefusal engine.new.machine.core (refusal_of e)) }
{
    if asking.due.is_empty() {
        return Ok(());
    }
    asking.asked = lacked_of(engine, asking.asked.as_slice())?;
    ask_front(engine, &mut asking.due, &mut asking.asked, dice)
}
