//! Taking frames off the bytes that come over a connection, by one step each, with dice of its own.
ghost use Rattle.std.specs.Prelude.{◌≡◌, ◌≢◌, ◌⊎◌, ◌<◌, ◌≤◌, ◌+◌, ◌++◌, ◌∷◌, []};
ghost use Rattle.std.specs.Prelude.{true, false, drop, length, IfNone, IfOk};
ghost use Rattle.std.specs.Prelude.{IfErr, IfSome, OnErr, OnOk};
ghost use Rattle.node_names.specs.declared.dice.Dice.{Dice as Drawn};
ghost use Rattle.frames.specs.declared.TheConstants.{MAX_FRAME as FrameMost};
ghost use Rattle.wire_node.specs.Receiving.{Draws, IsLeft, IsPartial, Takes, after_one, peer_of};
ghost use Rattle.wire_node.specs.Refusing.{IsRefusal, IsStop, fault_of, refusal_of};
ghost use Rattle.wire_node.specs.Moving.{Moves, arrival};

use crate::connections::{after, drop_front, top_up};
use crate::engine::Engine;
use crate::error::WireError;
use crate::step::Record;
use frames::{Frame, FrameFault, MAX_FRAME, decode};
use node_names::{Dice, NodeName};
use protocol::{CoreError, StimulusOf};
use std::alloc::Allocator;

/// A source of dice. Each frame that comes is given the next dice of it.
pub trait DiceSource {
    /// The dice that it gives from now on, in their order.
    ghost to_come: { Self → Draws };

    /// Draws the next dice.
    fn draw(&mut self) -> Dice
        ensures next { result ≡ to_come self.old 0 }
        ensures rest { to_come self.new ≡ after_one (to_come self.old) };
}

/// The same dice for each frame.
impl DiceSource for Dice {
    ghost to_come = { λ dice place. dice };

    fn draw(&mut self) -> Dice {
        *self
    }
}

/// Takes a frame by one step, whose sender is the connection's peer if it is the first.
pub(crate) fn take_frame<A: Allocator + Copy, R: Record<A> + Drop, D: DiceSource>(
    engine: &mut Engine<A, R>,
    peer: &mut Option<NodeName>,
    frame: Frame<A>,
    source: &mut D,
) -> Result<(), CoreError>
    ensures ok { OnOk result ((dice : Drawn)
        × Moves engine.old (arrival (frame, dice)).0 dice engine.new
        × (peer.new ≡ peer_of peer.old ((frame, dice) ∷ []))
        × (dice ≡ D.to_come source.old 0)) }
    ensures drawn { D.to_come source.new ≡ after_one (D.to_come source.old) }
    ensures err { OnErr result ((engine.new ≡ engine.old) × (peer.new ≡ peer.old)) }
    ensures why { IfErr result (λ e. (dice : Drawn)
        × IsRefusal engine.old.machine.core (arrival (frame, dice)).0 (refusal_of e)) }
{
    let name = frame.sender().name;
    let sender = frame.sender();
    let dice = source.draw();
    engine.step(
        &StimulusOf::Arrive {
            sender,
            note: frame,
            dice,
        },
        &dice,
    )?;
    if peer.is_none() {
        *peer = Some(name);
    }
    Ok(())
}

/// What comes of bytes that no frame begins: nothing, if they end before it does, or their refusal.
fn refused_by(fault: FrameFault) -> Result<(), WireError>
    ensures ok { OnOk result (fault ≡ FrameFault.Short) }
    ensures err { IfErr result (λ e. (e ≡ fault_of fault) × (fault ≢ FrameFault.Short)) }
{
    match fault {
        FrameFault::Short => Ok(()),
        _ => Err(WireError::of_frame(fault)),
    }
}

/// Takes the whole frames that the bytes begin with, where they lie. Returns how many bytes they have, and why no more
/// frames were taken: the rest is no whole frame (`Ok`), or is none at all, or a step was refused.
fn take_frames<A: Allocator + Copy, R: Record<A> + Drop, D: DiceSource>(
    engine: &mut Engine<A, R>,
    peer: &mut Option<NodeName>,
    bytes: &[u8],
    source: &mut D,
) -> (usize, Result<(), WireError>)
    ensures within { result.0 ≤ length bytes.now }
    ensures taken { (dealt : Draws)
        × Takes engine.old peer.old bytes.now
        (D.to_come source.old)
        engine.new peer.new
        (drop result.0 bytes.now)
        dealt
        × IsLeft result.1 dealt (D.to_come source.new) }
    ensures partial { OnOk result.1 (IsPartial (drop result.0 bytes.now)) }
    ensures why { IfErr result.1 (IsStop engine.new.machine.core [] (drop result.0 bytes.now)) }
{
    let alloc = engine.alloc();
    let mut at: usize = 0;
    loop {
        match decode(alloc, after(bytes, at)) {
            Ok((frame, len)) => {
                if let Err(error) = take_frame(engine, peer, frame, source) {
                    return (at, Err(WireError::of_core(error)));
                }
                at += len;
            }
            Err(fault) => return (at, refused_by(fault)),
        }
    }
}

/// What comes of a frame that is not whole yet, behind which `count` of `len` bytes were kept: how many were, or `None`
/// if all are. No frame is longer than `MAX_FRAME` bytes, so one that has as many is whole.
fn go_on(count: usize, len: usize) -> Result<Option<usize>, WireError>
    requires { count ≤ len }
    ensures some { IfOk result (λ r. IfSome r (λ some. (some ≡ count) × (0 < count))) }
    ensures none { IfOk result (λ r. IfNone r (count ≡ len)) }
    ensures err { IfErr result (λ e. (count ≡ 0) × (0 < len) × (e ≡ WireError.Frame FrameFault.TooLong)) }
{
    if count == len {
        return Ok(None);
    }
    if count == 0 {
        return Err(WireError::Frame(FrameFault::TooLong));
    }
    Ok(Some(count))
}

/// Completes a frame that was cut with the first of the bytes, and takes it. Returns how many bytes were taken, or
/// `None` if all are kept, and the frame is not whole yet. If it is refused, nothing changes.
fn complete<A: Allocator + Copy, R: Record<A> + Drop, D: DiceSource>(
    engine: &mut Engine<A, R>,
    left: &mut Vec<u8, A>,
    peer: &mut Option<NodeName>,
    bytes: &[u8],
    source: &mut D,
) -> Result<Option<usize>, WireError>
    requires { length left.old.items ≤ FrameMost }
    ensures within { IfOk result (λ r. IfSome r
        (λ count. (count ≤ length bytes.now) × (length left.new.items < length left.old.items + (count + count)))) }
    ensures some { IfOk result (λ r. IfSome r (λ count. Takes engine.old peer.old
        (left.old.items ++ bytes.now)
        (D.to_come source.old)
        engine.new peer.new
        (left.new.items ++ drop count bytes.now)
        (D.to_come source.new))) }
    ensures none { IfOk result (λ r. IfNone r (Takes engine.old peer.old
        (left.old.items ++ bytes.now)
        (D.to_come source.old)
        engine.new peer.new left.new.items
        (D.to_come source.new)
        × IsPartial left.new.items)) }
    ensures few { length left.new.items ≤ FrameMost }
    ensures err { OnErr result ((engine.new ≡ engine.old) × (peer.new ≡ peer.old) × (left.new.items ≡ left.old.items)) }
    ensures left { OnErr result (IsLeft result (D.to_come source.old) (D.to_come source.new)) }
    ensures why { IfErr result (λ e. 0 < length left.old.items
        → IsStop engine.old.machine.core left.old.items bytes.now e) }
{
    let len = left.len();
    let count = top_up(left, bytes)?;
    let (frame, whole) = match decode(engine.alloc(), left.as_slice()) {
        Ok(decoded) => decoded,
        Err(fault) => {
            if let Err(error) = refused_by(fault) {
                left.truncate(len);
                return Err(error);
            }
            return go_on(count, bytes.len());
        }
    };
    if let Err(error) = take_frame(engine, peer, frame, source) {
        left.truncate(len);
        return Err(WireError::of_core(error));
    }
    drop_front(left, whole);
    Ok(Some(count))
}

/// Completes the frame that was cut, if there is one. Returns how many bytes were taken, and whether nothing is left of
/// it; else all bytes are kept, and it is not whole yet.
fn finish_cut<A: Allocator + Copy, R: Record<A> + Drop, D: DiceSource>(
    engine: &mut Engine<A, R>,
    left: &mut Vec<u8, A>,
    peer: &mut Option<NodeName>,
    bytes: &[u8],
    source: &mut D,
) -> (usize, Result<bool, WireError>)
    requires { length left.old.items ≤ FrameMost }
    ensures within { result.0 ≤ length bytes.now }
    ensures taken { (dealt : Draws)
        × Takes engine.old peer.old
        (left.old.items ++ bytes.now)
        (D.to_come source.old)
        engine.new peer.new
        (left.new.items ++ drop result.0 bytes.now)
        dealt
        × IsLeft result.1 dealt (D.to_come source.new) }
    ensures why { IfErr result.1 (IsStop engine.new.machine.core left.new.items (drop result.0 bytes.now)) }
    ensures whole { IfOk result.1 (λ finished. finished ≡ true → left.new.items ≡ []) }
    ensures partial { IfOk result.1
        (λ finished. finished ≡ false → (result.0 ≡ length bytes.now) × IsPartial left.new.items) }
    ensures few { length left.new.items ≤ FrameMost }
{
    let mut at: usize = 0;
    while !left.is_empty() {
        match complete(engine, left, peer, after(bytes, at), source) {
            Ok(Some(count)) => at += count,
            Ok(None) => return (bytes.len(), Ok(false)),
            Err(error) => return (at, Err(error)),
        }
    }
    (at, Ok(true))
}

/// Keeps what is no whole frame. No frame is longer than `MAX_FRAME` bytes, so what has more of them begins with one or
/// with none at all, and was refused before. The test is made all the same, so that the bound on what is kept rests on
/// this crate alone.
fn keep<A: Allocator>(left: &mut Vec<u8, A>, rest: &[u8]) -> Result<(), WireError>
    requires { left.old.items ≡ [] }
    ensures ok { OnOk result (left.new.items ≡ rest.now) }
    ensures few { length left.new.items ≤ FrameMost }
    ensures err { OnErr result (left.new.items ≡ left.old.items) }
    ensures why { IfErr result (λ e. (e ≡ WireError.OutOfMemory)
        ⊎ ((e ≡ WireError.Frame FrameFault.TooLong) × (FrameMost ≤ length rest.now))) }
{
    if rest.len() > MAX_FRAME {
        return Err(WireError::Frame(FrameFault::TooLong));
    }
    left.extend_from_slice(rest)?;
    Ok(())
}

/// Takes the whole frames of what was left and of the bytes, in their order, by one step each, and keeps the rest.
/// Returns how many of the bytes were taken or kept, and why not all.
pub(crate) fn receive_on<A: Allocator + Copy, R: Record<A> + Drop, D: DiceSource>(
    engine: &mut Engine<A, R>,
    left: &mut Vec<u8, A>,
    peer: &mut Option<NodeName>,
    bytes: &[u8],
    source: &mut D,
) -> (usize, Result<(), WireError>)
    requires { length left.old.items ≤ FrameMost }
    ensures within { result.0 ≤ length bytes.now }
    ensures taken { (dealt : Draws)
        × Takes engine.old peer.old
        (left.old.items ++ bytes.now)
        (D.to_come source.old)
        engine.new peer.new
        (left.new.items ++ drop result.0 bytes.now)
        dealt
        × IsLeft result.1 dealt (D.to_come source.new) }
    ensures partial { OnOk result.1 ((result.0 ≡ length bytes.now) × IsPartial left.new.items) }
    ensures why { IfErr result.1 (IsStop engine.new.machine.core left.new.items (drop result.0 bytes.now)) }
    ensures few { length left.new.items ≤ FrameMost }
{
    let (at, finished) = finish_cut(engine, left, peer, bytes, source);
    match finished {
        Ok(true) => {}
        Ok(false) => return (at, Ok(())),
        Err(error) => return (at, Err(error)),
    }
    let (count, ended) = take_frames(engine, peer, after(bytes, at), source);
    let taken = at + count;
    if let Err(error) = ended {
        return (taken, Err(error));
    }
    match keep(left, after(bytes, taken)) {
        Ok(()) => (bytes.len(), Ok(())),
        Err(error) => (taken, Err(error)),
    }
}
