//! Where the application broadcasts.
ghost use Rattle.std.specs.Prelude.{◌≡◌, [], ◌∷◌, ◌++◌, ◌<◌, IfErr, IfOk, OnErr, vec_len, vec_capacity};
ghost use Rattle.node_threads.specs.Receipts.{IsMade};
ghost use Rattle.node_threads.specs.Refusal.{RefusesPayload};

use crate::cell::receipt::{Call, Receipt};
use crate::cores::NodeCore;
use crate::error::HostError;
use crate::host::shared::Shared;
use bytes::Bytes;
use node_names::Listed;
use std::alloc::{Allocator, Global};
use std::marker::Model;
use std::sync::{Arc, Wait};

/// A port of a running node, for one thread of the application.
///
/// It keeps each payload that it broadcast, with its receipt, so that closing the node can compare them with the trace,
/// until it is told to forget them.
#[derive(Drop)]
pub struct Port<C: NodeCore<A> + Drop, A: Allocator = Global> {
    shared: Arc<Shared<C, A>, A>,
    calls: Vec<Call<A>, A>,
}

impl<C: NodeCore<A> + Drop, A: Allocator> Model for Port<C, A> {
    ghost use Rattle.std.specs.Prelude.{List};
    ghost use Rattle.node_threads.specs.Receipts.{Call};

    ghost Value = { List Call };

    ghost view = { λ p. p.calls.items };
}

/// Appends a call, for which there is room.
fn keep<A: Allocator>(calls: &mut Vec<Call<A>, A>, payload: Bytes<A>, receipt: &Receipt)
    requires { vec_len calls.old < vec_capacity calls.old }
    ensures { calls.new.items ≡ calls.old.items ++ record { payload = payload; receipt = receipt.now } ∷ [] }
{
    let receipt = *receipt;
    calls.push(Call { payload, receipt }).unwrap();
}

/// Broadcasts a payload and keeps the call.
fn broadcast<R: Wait, C: NodeCore<A> + Drop, A: Allocator + Copy>(
    rt: &R,
    shared: &Shared<C, A>,
    calls: &mut Vec<Call<A>, A>,
    payload: Bytes<A>,
) -> Result<Receipt, HostError>
    ensures made { IfOk result (λ receipt. IsMade C.state C.steps payload receipt) }
    ensures ok { IfOk result
        (λ receipt. calls.new.items ≡ calls.old.items ++ record { payload = payload; receipt = receipt } ∷ []) }
    ensures err { OnErr result (calls.new.items ≡ calls.old.items) }
    ensures refused { IfErr result (RefusesPayload payload) }
{
    let kept = payload.clone()?;
    calls.reserve(1)?;
    let receipt = shared.broadcast(rt, payload)?;
    keep(calls, kept, &receipt);
    Ok(receipt)
}

impl<C: NodeCore<A> + Drop, A: Allocator + Copy> Port<C, A> {
    /// A port without calls.
    pub(crate) fn new(alloc: A, shared: Arc<Shared<C, A>, A>) -> Port<C, A>
        ensures { result ≡ [] }
    {
        Port {
            shared,
            calls: Vec::new(alloc),
        }
    }

    /// Broadcasts a payload of at most 32,768 bytes. Returns its id and its place in the trace.
    ///
    /// The errors are those of `NodeCell::apply`, in the same order, except that `OutOfMemory` may come before the
    /// others, since the port makes room to keep the call.
    pub fn broadcast<R: Wait>(&mut self, rt: &R, payload: Bytes<A>) -> Result<Receipt, HostError>
        ensures made { IfOk result (λ receipt. IsMade C.state C.steps payload receipt) }
        ensures ok { IfOk result
            (λ receipt. self.new ≡ self.old ++ record { payload = payload; receipt = receipt } ∷ []) }
        ensures err { OnErr result (self.new ≡ self.old) }
        ensures refused { IfErr result (RefusesPayload payload) }
    {
        broadcast(rt, &self.shared, &mut self.calls, payload)
    }

    /// Forgets its calls. Of a node that may forget (`Host::forget_from_now`) the close does not ask for them.
    pub fn forget(&mut self)
        ensures { self.new ≡ [] }
    {
        self.calls.clear();
    }

    /// Its calls, in order.
    pub fn calls(&self) -> &[Call<A>]
        ensures { result.now ≡ self.now }
    {
        self.calls.as_slice()
    }

    /// Its calls, in order.
    pub(crate) fn into_calls(self) -> Listed<Call<A>, A>
        ensures { result ≡ self }
    {
        let Port { calls, shared: _ } = self;
        Listed::from_vec(calls)
    }
}
