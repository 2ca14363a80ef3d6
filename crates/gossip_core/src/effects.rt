//! What a node's gossip yields: packets to send, and a message to deliver.
ghost use Rattle.std.specs.Prelude.{◌≡◌, [], ◌∷◌, ◌++◌, take, None, Some, IfOk, OnOk, OnErr};
ghost use Rattle.gossip_core.specs.Answers.{effects_of, pushes};

use crate::answer::{Answer, AnswerOf, Spread};
use crate::table::gossip;
use bytes::Bytes;
use frames::Body;
use node_names::{Listed, MsgId, NodeName, is_left_out};
use std::alloc::{AllocError, Allocator, Global};
use std::marker::Model;

/// The packets to send, each with its receiver, and the message that is delivered, if any. Calls append to it.
#[derive(Drop)]
pub struct Effects<A: Allocator = Global> {
    /// The packets in order, each with its receiver's name.
    pub sends: Listed<(NodeName, Body<A>), A>,
    /// The message for the application: the last one, if several calls delivered one.
    pub delivered: Option<(MsgId, Bytes<A>)>,
}

impl<A: Allocator> Model for Effects<A> {
    ghost use Rattle.std.specs.Prelude.{refl};
    ghost use Rattle.gossip_core.specs.Effects.{Effects};

    ghost Value = { Effects };

    ghost view = { λ effects. record { sends = effects.sends; delivered = effects.delivered } };

    ghost inverse = { λ effects. record { sends = effects.sends; delivered = effects.delivered } };

    ghost inverse_ok = { λ effects held. refl };
}

/// Makes the packets that carry the message.
fn pushes<A: Allocator + Copy>(
    alloc: A,
    spread: &Spread<'_, A>,
) -> Result<Vec<(NodeName, Body<A>), A>, AllocError>
    ensures { IfOk result (λ sends. sends.items ≡ pushes spread.now) }
{
    let mut sends = Vec::new(alloc);
    for member in spread.members {
        if member.1.is_eager() && !is_left_out(&spread.left_out, &member.0) {
            sends.push((member.0, gossip(&spread.id, spread.round, spread.payload)?))?;
        }
    }
    Ok(sends)
}

impl<A: Allocator + Copy> Effects<A> {
    ghost use Rattle.gossip_core.specs.Table.{latest};

    /// Creates effects with nothing to send and nothing to deliver. Does not allocate.
    pub fn new(alloc: A) -> Self
        ensures sends { result.sends ≡ [] }
        ensures delivered { result.delivered ≡ None }
    {
        Effects {
            sends: Listed::new(alloc),
            delivered: None,
        }
    }

    /// Creates what the answer sends and delivers.
    pub fn of(alloc: A, answer: Answer<'_, A>) -> Result<Self, AllocError>
        ensures { IfOk result (λ effects. effects ≡ effects_of answer.entry) }
    {
        match answer {
            AnswerOf::Nothing => Ok(Effects::new(alloc)),
            AnswerOf::Packet { to, body } => Effects::of_packet(alloc, to, body),
            AnswerOf::Packets { sends } => Ok(Effects {
                sends,
                delivered: None,
            }),
            AnswerOf::Message { spread, others } => Effects::of_message(alloc, &spread, others),
        }
    }

    /// Creates effects with one packet to send.
    fn of_packet(alloc: A, to: NodeName, body: Body<A>) -> Result<Self, AllocError>
        ensures { IfOk result (λ effects. effects ≡ record { sends = (to, body) ∷ []; delivered = None }) }
    {
        let mut effects = Effects::new(alloc);
        effects.sends.push((to, body))?;
        Ok(effects)
    }

    /// Creates what a message that goes on is, with the packets behind it.
    fn of_message(
        alloc: A,
        spread: &Spread<'_, A>,
        others: Listed<(NodeName, Body<A>), A>,
    ) -> Result<Self, AllocError>
        ensures { IfOk result (λ effects. effects ≡ record {
          sends = pushes spread.now ++ others;
          delivered = Some (spread.now.id, spread.now.payload.now);
        }) }
    {
        let mut sends = Listed::from_vec(pushes(alloc, spread)?);
        sends.append(others.into_vec())?;
        Ok(Effects {
            sends,
            delivered: Some((spread.id, spread.payload.clone()?)),
        })
    }

    /// Appends packets.
    pub(crate) fn send_all(
        &mut self,
        sends: Listed<(NodeName, Body<A>), A>,
    ) -> Result<(), AllocError>
        ensures ok { OnOk result (self.new ≡ record self.old { sends = self.old.sends ++ sends }) }
        ensures err { OnErr result (self.new ≡ self.old) }
    {
        self.sends.append(sends.into_vec())?;
        Ok(())
    }

    /// Drops all packets but the first `n`.
    pub(crate) fn keep_first(&mut self, n: usize)
        ensures { self.new ≡ record self.old { sends = take n self.old.sends } }
    {
        self.sends.truncate(n);
    }

    /// Replaces the message to deliver by `delivered`, if there is one.
    pub(crate) fn deliver(&mut self, delivered: Option<(MsgId, Bytes<A>)>)
        ensures { self.new ≡ record self.old { delivered = latest self.old.delivered delivered } }
    {
        if delivered.is_some() {
            self.delivered = delivered;
        }
    }
}
