//! The packets in flight, collected by the messages that they are about in one pass over the flight.
ghost use Rattle.std.specs.Prelude.{◌≡◌, [], ◌∷◌, ◌++◌, ◌&&◌, not, IfOk, OnOk, if◌then◌else◌};
ghost use Rattle.node_names.specs.Same.{same_id};
ghost use Rattle.node_names.specs.declared.ids.MsgId.{MsgId as Id};
ghost use Rattle.frames.specs.Content.{frame_content};
ghost use Rattle.at_rest.specs.Silence.{is_announced, is_silent};
ghost use Rattle.simulation.specs.Flights.{about, about_at, numbers_at};

use frames::{BodyOf, Frame};
use indexmap::IndexMap;
use node_core::PlumCore;
use node_names::MsgId;
use std::alloc::{AllocError, Allocator, Global};
use std::hash::{BuildHasherDefault, FoldHasher};
use std::marker::Model;
use world::{Packet, World};

/// Numbers of packets, which contracts see as a list.
#[derive(Drop)]
pub struct Numbers<A: Allocator = Global> {
    numbers: Vec<usize, A>,
}

impl<A: Allocator> Model for Numbers<A> {
    ghost use Rattle.std.specs.Prelude.{ℕ, List};

    ghost Value = { List ℕ };

    ghost view = { λ n. n.numbers.items };
}

impl<A: Allocator> Numbers<A> {
    /// No numbers.
    fn new(alloc: A) -> Numbers<A>
        ensures { result ≡ [] }
    {
        Numbers {
            numbers: Vec::new(alloc),
        }
    }

    /// Adds a number behind the others.
    fn push(&mut self, number: usize) -> Result<(), AllocError>
        ensures { OnOk result (self.new ≡ self.old ++ number ∷ []) }
    {
        self.numbers.push(number)?;
        Ok(())
    }

    /// The numbers.
    fn as_slice(&self) -> &[usize]
        ensures { result.now ≡ self.now }
    {
        self.numbers.as_slice()
    }
}

/// The numbers of the packets in flight that carry, announce or ask for each message, in the order of the flight.
pub type Flights<A> = IndexMap<MsgId, Numbers<A>, BuildHasherDefault<FoldHasher>, A>;

/// The numbers that are listed for a message.
pub fn numbers_of<'a, A: Allocator>(flights: &'a Flights<A>, id: &MsgId) -> &'a [usize]
    ensures { result.now ≡ numbers_at id.now flights.now.entries }
{
    match flights.get(id) {
        Some(numbers) => numbers.as_slice(),
        None => &[],
    }
}

/// Lists the packets in flight by message.
pub fn flights_of<A: Allocator + Copy>(
    alloc: A,
    group: &World<PlumCore<A>, A>,
) -> Result<Flights<A>, AllocError>
    ensures { IfOk result
        (λ flights. (id : Id) → numbers_at id flights.entries ≡ about id group.now.group.sent group.now.group.flight) }
{
    let mut flights = IndexMap::new(alloc);
    add_all(&mut flights, group.sent(), group.flight())?;
    Ok(flights)
}

/// Lists the packets with these numbers for the messages that they are about.
fn add_all<A: Allocator + Copy>(
    flights: &mut Flights<A>,
    sent: &[Packet<Frame<A>>],
    numbers: &[usize],
) -> Result<(), AllocError>
    ensures { OnOk result ((id : Id)
        → numbers_at id flights.new.entries ≡ numbers_at id flights.old.entries ++ about id sent.now numbers.now) }
{
    for number in numbers {
        add_at(flights, sent, *number)?;
    }
    Ok(())
}

/// Lists the packet with this number, if there is one, for the messages that it is about.
fn add_at<A: Allocator + Copy>(
    flights: &mut Flights<A>,
    sent: &[Packet<Frame<A>>],
    number: usize,
) -> Result<(), AllocError>
    ensures { OnOk result ((id : Id)
        → numbers_at id flights.new.entries ≡ numbers_at id flights.old.entries ++ about_at id sent.now number) }
{
    match sent.get(number) {
        Some(packet) => add_frame(flights, &packet.note, number),
        None => Ok(()),
    }
}

/// Lists the number of a packet for each message that its frame carries, announces or asks for. An announcement is
/// compared with those before it in the frame.
fn add_frame<A: Allocator + Copy>(
    flights: &mut Flights<A>,
    note: &Frame<A>,
    number: usize,
) -> Result<(), AllocError>
    ensures { OnOk result ((id : Id) → numbers_at id flights.new.entries
        ≡ numbers_at id flights.old.entries ++ (if is_silent id (frame_content note.now) then [] else number ∷ [])) }
{
    match note.body() {
        BodyOf::Gossip { id, .. } => add(flights, id, number),
        BodyOf::IHave { entries } => add_announced(flights, entries.as_slice(), number),
        BodyOf::Graft { id, .. } => add(flights, id, number),
        _ => Ok(()),
    }
}

/// Lists a number for each message that is announced, once.
fn add_announced<A: Allocator + Copy>(
    flights: &mut Flights<A>,
    entries: &[(MsgId, u32)],
    number: usize,
) -> Result<(), AllocError>
    ensures { OnOk result ((id : Id) → numbers_at id flights.new.entries
        ≡ numbers_at id flights.old.entries ++ (if is_announced id entries.now then number ∷ [] else [])) }
{
    for place in 0..entries.len() {
        add_first(flights, &entries[..place], &entries[place].0, number)?;
    }
    Ok(())
}

/// Lists a number for a message, unless it is announced before.
fn add_first<A: Allocator + Copy>(
    flights: &mut Flights<A>,
    before: &[(MsgId, u32)],
    id: &MsgId,
    number: usize,
) -> Result<(), AllocError>
    ensures { OnOk result ((q : Id) → numbers_at q flights.new.entries ≡ numbers_at q flights.old.entries
        ++ (if same_id q id.now && not (is_announced q before.now) then number ∷ [] else [])) }
{
    if is_announced(before, id) {
        return Ok(());
    }
    add(flights, id, number)
}

/// Whether one of the announcements is of the message.
fn is_announced(announced: &[(MsgId, u32)], id: &MsgId) -> bool
    ensures { result ≡ is_announced id.now announced.now }
{
    announced.iter().any(|entry| *id == entry.0)
}

/// Lists a number for a message.
fn add<A: Allocator + Copy>(
    flights: &mut Flights<A>,
    id: &MsgId,
    number: usize,
) -> Result<(), AllocError>
    ensures { OnOk result ((q : Id) → numbers_at q flights.new.entries
        ≡ numbers_at q flights.old.entries ++ (if same_id q id.now then number ∷ [] else [])) }
{
    match flights.get_mut(id) {
        Some(numbers) => numbers.push(number),
        None => {
            let mut numbers = Numbers::new(*flights.allocator());
            numbers.push(number)?;
            flights.insert(*id, numbers)?;
            Ok(())
        }
    }
}
