//! Takes frames that came over a link, one step each.
ghost use Rattle.std.specs.Prelude.{◌≡◌, ◌≤◌, length, take, OnOk, OnErr};
ghost use Rattle.rand_core.specs.Stream.{Stream};
ghost use Rattle.node_threads.specs.Taking.{TakesFrame, TakesFrames};

use crate::cell::NodeCell;
use crate::cell::learning::Learnt;
use crate::cores::NodeCore;
use crate::error::HostError;
use frames::Frame;
use node_names::Dice;
use protocol::StimulusOf;
use rand_core::Rng;
use std::alloc::Allocator;

/// Has the cell take a frame: one step with its Downs. All dice are the generator's next.
fn take_frame<C: NodeCore<A> + Drop, A: Allocator + Copy, R: Rng>(
    cell: &mut NodeCell<C, A>,
    note: Frame<A>,
    generator: &mut R,
    learnt: &mut Learnt<A>,
) -> Result<(), HostError>
    ensures taken { OnOk result (TakesFrame C.state C.steps C.is_spent
        (R.stream generator.old) cell.old learnt.old note cell.new learnt.new (R.stream generator.new)) }
    ensures err { OnErr result ((cell.new ≡ cell.old) × (learnt.new ≡ learnt.old)) }
{
    let sender = note.sender();
    let dice = Dice::draw(generator);
    cell.apply_drawing(StimulusOf::Arrive { sender, note, dice }, generator, learnt)?;
    Ok(())
}

/// Has the cell take frames, one step each with its Downs, until one is refused; all dice are the generator's next.
/// Returns the number of steps made, and why the next one was refused.
pub(crate) fn take_frames<C: NodeCore<A> + Drop, A: Allocator + Copy, R: Rng>(
    cell: &mut NodeCell<C, A>,
    frames: Vec<Frame<A>, A>,
    generator: &mut R,
    learnt: &mut Learnt<A>,
) -> (usize, Result<(), HostError>)
    ensures taken { (left : Stream) × TakesFrames C.state C.steps C.is_spent
        (R.stream generator.old) cell.old learnt.old (take result.0 frames.items) cell.new learnt.new left }
    ensures within { result.0 ≤ length frames.items }
    ensures all { OnOk result.1 (result.0 ≡ length frames.items) }
{
    let mut taken: usize = 0;
    for note in frames {
        if let Err(why) = take_frame(cell, note, generator, learnt) {
            return (taken, Err(why));
        }
        taken += 1;
    }
    (taken, Ok(()))
}
