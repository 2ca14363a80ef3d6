//! The stimuli that make a core step.
ghost use Rattle.std.specs.Prelude.{◌≡◌};
ghost use Rattle.protocol.specs.Stimulus.{lent};

use bytes::Bytes;
use node_names::{Dice, MsgId, NodeName, Origin};
use std::alloc::Global;

/// A stimulus whose payload is allocated by `A` and whose packet is an `N`.
pub type Stimulus<N, A = Global> = StimulusOf<Bytes<A>, N>;

/// A stimulus that borrows its payload or packet, for example from a list of packets. The halves of a step take it in
/// this form, so that an arriving packet is not copied.
pub type StimulusRef<'a, N, A = Global> = StimulusOf<&'a Bytes<A>, &'a N>;

/// A stimulus, by its kind. `P` is a payload and `N` a packet.
#[derive(Drop)]
pub enum StimulusOf<P, N> {
    /// The application broadcasts a message.
    Broadcast(P),
    /// A packet arrives.
    Arrive { sender: Origin, note: N, dice: Dice },
    /// The timer for an id fires.
    Fire(MsgId),
    /// All queued announcements are to be sent.
    Flush,
    /// The link to a peer fails.
    Down { peer: NodeName, dice: Dice },
    /// The membership tick comes.
    Shuffle(Dice),
    /// The node is to join by this contact, as at a start: for example since all its links failed.
    Join(NodeName),
}

impl<P, N> StimulusOf<P, N> {
    /// Returns the same stimulus with its payload or packet borrowed.
    pub fn as_ref(&self) -> StimulusOf<&P, &N>
        ensures { lent result ≡ self.now }
    {
        match self {
            StimulusOf::Broadcast(payload) => StimulusOf::Broadcast(payload),
            StimulusOf::Arrive { sender, note, dice } => StimulusOf::Arrive {
                sender: *sender,
                note,
                dice: *dice,
            },
            StimulusOf::Fire(id) => StimulusOf::Fire(*id),
            StimulusOf::Flush => StimulusOf::Flush,
            StimulusOf::Down { peer, dice } => StimulusOf::Down {
                peer: *peer,
                dice: *dice,
            },
            StimulusOf::Shuffle(dice) => StimulusOf::Shuffle(*dice),
            StimulusOf::Join(contact) => StimulusOf::Join(*contact),
        }
    }
}
