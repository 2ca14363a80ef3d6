//! Copies of what a step takes and gives. Their payloads are shared. What is noted is copied because the core lends its
//! frames, and would have to be given back what a step owned.
ghost use Rattle.std.specs.Prelude.{◌≡◌, IfOk};

use frames::Frame;
use node_names::{Listed, NodeName};
use protocol::{Out, Stimulus, StimulusOf, Wire, copy_deliveries};
use std::alloc::{AllocError, Allocator};

/// Copies a stimulus.
pub(crate) fn copy_stimulus<A: Allocator + Copy>(
    stimulus: &Stimulus<Frame<A>, A>,
) -> Result<Stimulus<Frame<A>, A>, AllocError>
    ensures { IfOk result (λ copy. copy ≡ stimulus.now) }
{
    Ok(match stimulus {
        StimulusOf::Broadcast(payload) => StimulusOf::Broadcast(payload.clone()?),
        StimulusOf::Arrive { sender, note, dice } => StimulusOf::Arrive {
            sender: *sender,
            note: note.copy()?,
            dice: *dice,
        },
        StimulusOf::Fire(id) => StimulusOf::Fire(*id),
        StimulusOf::Flush => StimulusOf::Flush,
        StimulusOf::Down { peer, dice } => StimulusOf::Down {
            peer: *peer,
            dice: *dice,
        },
        StimulusOf::Shuffle(dice) => StimulusOf::Shuffle(*dice),
        StimulusOf::Join(contact) => StimulusOf::Join(*contact),
    })
}

/// Copies packets with their receivers.
fn copy_sends<A: Allocator + Copy>(
    alloc: A,
    sends: &[(NodeName, Frame<A>)],
) -> Result<Vec<(NodeName, Frame<A>), A>, AllocError>
    ensures { IfOk result (λ copies. copies.items ≡ sends.now) }
{
    let mut copies = Vec::new(alloc);
    for send in sends {
        copies.push((send.0, send.1.copy()?))?;
    }
    Ok(copies)
}

/// Copies what a step sends and delivers.
pub(crate) fn copy_out<A: Allocator + Copy>(
    alloc: A,
    out: &Out<Frame<A>, A>,
) -> Result<Out<Frame<A>, A>, AllocError>
    ensures { IfOk result (λ copy. copy ≡ out.now) }
{
    let sends = copy_sends(alloc, out.sends.as_slice())?;
    let deliveries = copy_deliveries(alloc, out.deliveries.as_slice())?;
    Ok(Out {
        sends: Listed::from_vec(sends),
        deliveries: Listed::from_vec(deliveries),
    })
}
