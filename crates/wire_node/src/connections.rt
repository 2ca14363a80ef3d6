//! The connections of a node of bytes, and what came over each and is no whole frame yet.
ghost use Rattle.std.specs.Prelude.{◌≡◌, ◌⊎◌, ◌∷◌, ◌++◌, ◌+◌, ◌<◌, ◌≤◌, [], ℕ, None};
ghost use Rattle.std.specs.Prelude.{Some, filter, length, nat_eq, not, position};
ghost use Rattle.node_names.specs.NodeName.{Name};
ghost use Rattle.protocol.specs.declared.stimulus.StimulusOf.TheVariants.{Down};
ghost use Rattle.std.specs.Prelude.{drop, take, IfErr, IfOk, OnErr, OnOk};
ghost use Rattle.wire_node.specs.Node.{Closes, EndsPeer, HasNone, Hears, HearsFirst, has_other, has_peer};
ghost use Rattle.wire_node.specs.Receiving.{Draws, IsLeft, IsPartial, Receives};
ghost use Rattle.wire_node.specs.Refusing.{IsRefusal, IsStop, RefusesEnd, refusal_of};

use crate::engine::Engine;
use crate::error::WireError;
use crate::node::WireNode;
use crate::receiving::{DiceSource, receive_on};
use crate::step::Record;
use frames::{MAX_BODY, MAX_FRAME};
use node_names::{Dice, NodeName};
use protocol::CoreError;
use std::alloc::{AllocError, Allocator};
use std::marker::Model;

/// A connection: its number, what came over it and is no whole frame yet, and who speaks over it.
#[derive(Drop)]
pub(crate) struct Connection<A: Allocator> {
    pub(crate) number: u64,
    /// Of a frame that was cut, at most as many bytes as a frame may have.
    pub(crate) left: Vec<u8, A>,
    /// The sender of the first frame.
    pub(crate) peer: Option<NodeName>,
}

impl<A: Allocator> Model for Connection<A> {
    ghost use Rattle.std.specs.Prelude.{◌≤◌, length};
    ghost use Rattle.frames.specs.declared.TheConstants.{MAX_FRAME};
    ghost use Rattle.wire_node.specs.Receiving.{Connection};

    ghost Value = { Connection };

    ghost view = { λ link. record { number = link.number; left = link.left.items; peer = link.peer } };

    ghost invariant = { λ link. length link.left.items ≤ MAX_FRAME };
}

impl<A: Allocator> Connection<A> {
    /// Makes a connection over which nothing came.
    pub(crate) fn new(alloc: A, number: u64) -> Connection<A>
        ensures { result ≡ record { number = number; left = []; peer = None } }
    {
        Connection {
            number,
            left: Vec::new(alloc),
            peer: None,
        }
    }

    /// Its number.
    pub(crate) fn number(&self) -> u64
        ensures { result ≡ self.now.number }
    {
        self.number
    }

    /// The sender of the first frame that came over it.
    pub(crate) fn peer(&self) -> Option<NodeName>
        ensures { result ≡ self.now.peer }
    {
        self.peer
    }

    /// Whether its first frame came from the name.
    pub(crate) fn has_peer(&self, name: &NodeName) -> bool
        ensures { result ≡ has_peer self.now.peer name.now }
    {
        match self.peer {
            Some(peer) => peer == *name,
            None => false,
        }
    }
}

/// The number of bytes at the front of a frame that say how many follow.
const PREFIX: usize = 4;

/// The bytes from this place on.
pub(crate) fn after(bytes: &[u8], at: usize) -> &[u8]
    requires { at ≤ length bytes.now }
    ensures { result.now ≡ drop at bytes.now }
{
    &bytes[at..]
}

/// Drops the first items.
pub(crate) fn drop_front<T: Copy, A: Allocator>(items: &mut Vec<T, A>, count: usize)
    requires { count ≤ length items.old.items }
    ensures { items.new.items ≡ drop count items.old.items }
{
    items.drain(..count);
}

/// How many bytes the frame has that begins so, as far as that is known.
fn frame_len(front: &[u8]) -> usize
    ensures { result ≤ MAX_FRAME }
{
    match front {
        [a, b, c, d, ..] => {
            let body = u32::from_be_bytes([*a, *b, *c, *d]) as usize;
            PREFIX + body.min(MAX_BODY)
        }
        _ => PREFIX,
    }
}

/// Appends the first of the bytes, until there are `len` or no more. Returns how many.
fn fill<A: Allocator>(left: &mut Vec<u8, A>, len: usize, bytes: &[u8]) -> Result<usize, AllocError>
    ensures within { IfOk result (λ count. count ≤ length bytes.now) }
    ensures ok { IfOk result (λ count. left.new.items ≡ left.old.items ++ take count bytes.now) }
    ensures some { IfOk result (λ count. length left.old.items < len → 0 < length bytes.now → 0 < count) }
    ensures few { (most : ℕ) → len ≤ most → length left.old.items ≤ most → length left.new.items ≤ most }
    ensures err { OnErr result (left.new.items ≡ left.old.items) }
{
    let lacking = len.saturating_sub(left.len());
    let count = if lacking < bytes.len() {
        lacking
    } else {
        bytes.len()
    };
    left.extend_from_slice(&bytes[..count])?;
    Ok(count)
}

/// Appends the first of the bytes: as many as the frame lacks that was cut, and one at least where there is one and
/// room in the longest frame. Returns how many.
pub(crate) fn top_up<A: Allocator>(left: &mut Vec<u8, A>, bytes: &[u8]) -> Result<usize, AllocError>
    requires { length left.old.items ≤ MAX_FRAME }
    ensures within { IfOk result (λ count. count ≤ length bytes.now) }
    ensures ok { IfOk result (λ count. left.new.items ≡ left.old.items ++ take count bytes.now) }
    ensures some { IfOk result (λ count. length left.old.items < MAX_FRAME → 0 < length bytes.now → 0 < count) }
    ensures few { length left.new.items ≤ MAX_FRAME }
    ensures err { OnErr result (left.new.items ≡ left.old.items) }
{
    let len = left.len();
    let more = if len < PREFIX {
        PREFIX
    } else {
        (len + 1).min(MAX_FRAME)
    };
    let front = fill(left, more, bytes)?;
    match fill(left, frame_len(left), after(bytes, front)) {
        Ok(count) => Ok(front + count),
        Err(error) => {
            left.truncate(len);
            Err(error)
        }
    }
}

/// A connection of a node. No other connection of the node ever has the same number.
#[derive(Clone, Copy, Debug, PartialEq, Eq)]
pub struct ConnectionId(pub u64);

/// Why bytes of a connection were not all taken.
#[derive(Clone, Copy, Debug, PartialEq, Eq)]
pub struct ReceiveError {
    /// How many of the bytes were taken or kept. Where memory was refused, the others may be given again.
    pub taken: usize,
    /// Why the others were not.
    pub error: WireError,
}

/// The place of the connection.
fn place_of<A: Allocator>(connections: &[Connection<A>], id: ConnectionId) -> Option<usize>
    ensures { result ≡ position (λ link. nat_eq link.number id.0) connections.now }
{
    connections.iter().position(|link| link.number() == id.0)
}

/// Takes bytes that came over the connection. Returns how many of them were taken or kept, and why not all.
fn receive_at<A: Allocator + Copy, R: Record<A> + Drop, D: DiceSource>(
    engine: &mut Engine<A, R>,
    link: &mut Connection<A>,
    bytes: &[u8],
    source: &mut D,
) -> (usize, Result<(), WireError>)
    ensures receives { (dealt : Draws)
        × Receives engine.old link.old bytes.now (D.to_come source.old) result.0 engine.new link.new dealt
        × IsLeft result.1 dealt (D.to_come source.new) }
    ensures partial { OnOk result.1 ((result.0 ≡ length bytes.now) × IsPartial link.new.left) }
    ensures why { IfErr result.1 (IsStop engine.new.machine.core link.new.left (drop result.0 bytes.now)) }
{
    receive_on(engine, &mut link.left, &mut link.peer, bytes, source)
}

/// Whether another of the connections has this peer.
fn has_other<A: Allocator>(connections: &[Connection<A>], id: ConnectionId, peer: &NodeName) -> bool
    ensures { result ≡ has_other connections.now id.0 peer.now }
{
    connections
        .iter()
        .any(|link| link.number() != id.0 && link.has_peer(peer))
}

/// Takes the peer of a connection that has ended down, unless it is down already or has another connection.
fn end_peer<A: Allocator + Copy, R: Record<A> + Drop>(
    engine: &mut Engine<A, R>,
    connections: &[Connection<A>],
    id: ConnectionId,
    peer: Option<NodeName>,
    dice: &Dice,
) -> Result<(), CoreError>
    ensures ok { OnOk result (EndsPeer engine.old connections.now id.0 peer dice.now engine.new) }
    ensures err { OnErr result (engine.new ≡ engine.old) }
    ensures why { IfErr result (λ e. (name : Name)
        × (peer ≡ Some name)
        × IsRefusal engine.old.machine.core (Down name dice.now) (refusal_of e)) }
{
    let Some(name) = peer else {
        return Ok(());
    };
    if !engine.is_up(&name) || has_other(connections, id, &name) {
        return Ok(());
    }
    engine.take_down(name, dice)
}

/// Drops the connection of this number.
fn forget_link<A: Allocator>(connections: &mut Vec<Connection<A>, A>, number: u64)
    ensures { connections.new.items ≡ filter (λ link. not (nat_eq link.number number)) connections.old.items }
{
    connections.retain(
        |link: &Connection<A>| -> bool
            ensures { result ≡ not (nat_eq link.now.number number) }
        { link.number() != number },
    );
}

impl<A: Allocator + Copy, R: Record<A> + Drop> WireNode<A, R> {
    /// Accepts a connection, over which bytes may come from now on. Its number is greater than that of each that was
    /// accepted before. `NoConnection`: no number is left.
    pub fn accept(&mut self) -> Result<ConnectionId, WireError>
        ensures ok { IfOk result (λ id. self.new ≡ record self.old {
          connections = self.old.connections ++ record { number = id.0; left = []; peer = None } ∷ [];
          numbered = id.0;
        }) }
        ensures number { IfOk result (λ id. id.0 ≡ self.old.numbered + 1) }
        ensures err { OnErr result (self.new ≡ self.old) }
        ensures why { IfErr result (λ e. ((e ≡ WireError.NoConnection) × (self.old.numbered ≡ u64.MAX))
            ⊎ ((e ≡ WireError.OutOfMemory) × (self.old.numbered < u64.MAX))) }
    {
        let Some(number) = self.numbered.checked_add(1) else {
            return Err(WireError::NoConnection);
        };
        let link = Connection::new(self.engine.alloc(), number);
        if self.connections.push(link).is_err() {
            return Err(WireError::OutOfMemory);
        }
        self.numbered = number;
        Ok(ConnectionId(number))
    }

    /// Takes bytes that came over the connection. Each whole frame is one step with dice of its own, in their order,
    /// and what is no whole frame yet is kept: never more than 32,880 bytes.
    ///
    /// `NoConnection`: there is no such connection, and nothing is taken. Where memory is refused,
    /// `ReceiveError::taken` says how many of the bytes were taken; where the bytes are no frame, close the connection.
    pub fn receive<D: DiceSource>(
        &mut self,
        id: ConnectionId,
        bytes: &[u8],
        source: &mut D,
    ) -> Result<(), ReceiveError>
        ensures ok { OnOk result
            ((hears : Hears self.old id.0 bytes.now (D.to_come source.old)
            (length bytes.now)
            self.new
            (D.to_come source.new))
            × IsPartial hears.link'.left) }
        ensures err { IfErr result (λ failed.
            HearsFirst self.old id.0 bytes.now (D.to_come source.old) failed self.new (D.to_come source.new)
            ⊎ ((self.new ≡ self.old)
            × (failed ≡ record { taken = 0; error = WireError.NoConnection })
            × HasNone self.old.connections id.0
            × (D.to_come source.new ≡ D.to_come source.old))) }
    {
        let Some(place) = place_of(&self.connections, id) else {
            return Err(ReceiveError {
                taken: 0,
                error: WireError::NoConnection,
            });
        };
        let (taken, ended) = receive_at(
            &mut self.engine,
            &mut self.connections[place],
            bytes,
            source,
        );
        if let Err(error) = ended {
            return Err(ReceiveError { taken, error });
        }
        Ok(())
    }

    /// Drops the connection, with what came over it and is no whole frame. Its peer goes down, unless it is down
    /// already or has another connection. If the step of that is refused, nothing changes.
    pub fn ended(&mut self, id: ConnectionId, dice: &Dice) -> Result<(), WireError>
        ensures ok { OnOk result (Closes self.old id.0 dice.now self.new) }
        ensures err { OnErr result (self.new ≡ self.old) }
        ensures why { IfErr result (λ e. ((e ≡ WireError.NoConnection) × HasNone self.old.connections id.0)
            ⊎ RefusesEnd self.old.engine.machine.core self.old.connections id.0 dice.now e) }
    {
        let Some(place) = place_of(&self.connections, id) else {
            return Err(WireError::NoConnection);
        };
        let peer = self.connections[place].peer();
        if let Err(error) = end_peer(&mut self.engine, &self.connections, id, peer, dice) {
            return Err(WireError::of_core(error));
        }
        forget_link(&mut self.connections, id.0);
        Ok(())
    }
}
