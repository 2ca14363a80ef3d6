//! One event of a scenario.
ghost use Rattle.std.specs.Prelude.{◌≡◌, ◌≢◌, IfOk, IfErr, codes};
ghost use Rattle.toml.specs.View.{table_view};
ghost use Rattle.scenario.specs.Reading.{at_key, IsText};
ghost use Rattle.scenario.specs.Scenario.{IsAction};

use crate::error::{Key, ScenarioError};
use crate::section::Section;
use bytes::Bytes;
use node_names::{Incarnation, Listed, MsgId, NodeName, Origin};
use std::alloc::Global;

/// What an event of a scenario does.
#[derive(Drop)]
pub enum Action {
    /// A node starts.
    Start {
        node: NodeName,
        incarnation: Incarnation,
        peers: Listed<NodeName>,
        contact: Option<NodeName>,
    },
    /// A node broadcasts a text.
    Broadcast {
        node: NodeName,
        text: Bytes,
    },
    /// The packet at a place in flight arrives.
    Arrive {
        place: usize,
    },
    /// The packet at a place in flight is lost.
    Lose {
        place: usize,
    },
    /// The packet that was sent with a number, counted from 0, is put into flight again.
    Again {
        number: usize,
    },
    /// A node's timer for a message fires.
    Fire {
        node: NodeName,
        id: MsgId,
    },
    /// A node sends its queued announcements.
    Flush {
        node: NodeName,
    },
    /// A node's membership ticks.
    Shuffle {
        node: NodeName,
    },
    /// A node is told to join by a contact.
    Join {
        node: NodeName,
        contact: NodeName,
    },
    /// A node's link to a peer fails.
    Down {
        node: NodeName,
        peer: NodeName,
    },
    /// A node stops.
    Stop {
        node: NodeName,
    },
    /// The oldest packet in flight arrives, again and again until none is in flight.
    ArriveAll,
    /// The group is brought to rest.
    Settle,
}

impl Action {
    /// Reads the table of one event.
    pub fn from_section(alloc: Global, section: &Section<'_>) -> Result<Action, ScenarioError>
        ensures ok { IfOk result (IsAction (table_view section.now.table.now)) }
        ensures refused { IfErr result (λ e.
            e ≢ ScenarioError.OutOfMemory → (action : Action) → ¬ IsAction (table_view section.now.table.now) action) }
    {
        match section.text(Key::Do)? {
            "start" => start(alloc, section),
            "broadcast" => broadcast(alloc, section),
            "arrive" => arrive(section),
            "lose" => lose(section),
            "again" => again(section),
            "fire" => fire(section),
            "flush" => flush(section),
            "shuffle" => shuffle(section),
            "join" => join(section),
            "down" => down(section),
            "stop" => stop(section),
            "arrive_all" => Ok(Action::ArriveAll),
            "settle" => Ok(Action::Settle),
            _ => Err(section.refused(Key::Do)),
        }
    }
}

fn start(alloc: Global, section: &Section<'_>) -> Result<Action, ScenarioError>
    requires { IsText (at_key Key.Do (table_view section.now.table.now)) (codes "start") }
    ensures ok { IfOk result (IsAction (table_view section.now.table.now)) }
    ensures refused { IfErr result (λ e.
        e ≢ ScenarioError.OutOfMemory → (action : Action) → ¬ IsAction (table_view section.now.table.now) action) }
{
    let node = section.name(Key::Node)?;
    let incarnation = Incarnation(section.number(Key::Incarnation)?);
    let peers = section.names(alloc, Key::Peers)?;
    let contact = section.optional_name(Key::Contact)?;
    Ok(Action::Start {
        node,
        incarnation,
        peers,
        contact,
    })
}

fn broadcast(alloc: Global, section: &Section<'_>) -> Result<Action, ScenarioError>
    requires { IsText (at_key Key.Do (table_view section.now.table.now)) (codes "broadcast") }
    ensures ok { IfOk result (IsAction (table_view section.now.table.now)) }
    ensures refused { IfErr result (λ e.
        e ≢ ScenarioError.OutOfMemory → (action : Action) → ¬ IsAction (table_view section.now.table.now) action) }
{
    let node = section.name(Key::Node)?;
    let text = section.text(Key::Text)?;
    let text = Bytes::copy_from_slice(alloc, text.as_bytes())?;
    Ok(Action::Broadcast { node, text })
}

fn arrive(section: &Section<'_>) -> Result<Action, ScenarioError>
    requires { IsText (at_key Key.Do (table_view section.now.table.now)) (codes "arrive") }
    ensures ok { IfOk result (IsAction (table_view section.now.table.now)) }
    ensures refused { IfErr result (λ _. (action : Action) → ¬ IsAction (table_view section.now.table.now) action) }
{
    let place = section.number(Key::Place)? as usize;
    Ok(Action::Arrive { place })
}

fn lose(section: &Section<'_>) -> Result<Action, ScenarioError>
    requires { IsText (at_key Key.Do (table_view section.now.table.now)) (codes "lose") }
    ensures ok { IfOk result (IsAction (table_view section.now.table.now)) }
    ensures refused { IfErr result (λ _. (action : Action) → ¬ IsAction (table_view section.now.table.now) action) }
{
    let place = section.number(Key::Place)? as usize;
    Ok(Action::Lose { place })
}

fn again(section: &Section<'_>) -> Result<Action, ScenarioError>
    requires { IsText (at_key Key.Do (table_view section.now.table.now)) (codes "again") }
    ensures ok { IfOk result (IsAction (table_view section.now.table.now)) }
    ensures refused { IfErr result (λ _. (action : Action) → ¬ IsAction (table_view section.now.table.now) action) }
{
    let number = section.number(Key::Number)? as usize;
    Ok(Action::Again { number })
}

fn fire(section: &Section<'_>) -> Result<Action, ScenarioError>
    requires { IsText (at_key Key.Do (table_view section.now.table.now)) (codes "fire") }
    ensures ok { IfOk result (IsAction (table_view section.now.table.now)) }
    ensures refused { IfErr result (λ _. (action : Action) → ¬ IsAction (table_view section.now.table.now) action) }
{
    let node = section.name(Key::Node)?;
    let name = section.name(Key::Origin)?;
    let incarnation = Incarnation(section.number(Key::Incarnation)?);
    let seq = section.number_from_one(Key::Seq)?;
    let origin = Origin { name, incarnation };
    Ok(Action::Fire {
        node,
        id: MsgId { origin, seq },
    })
}

fn flush(section: &Section<'_>) -> Result<Action, ScenarioError>
    requires { IsText (at_key Key.Do (table_view section.now.table.now)) (codes "flush") }
    ensures ok { IfOk result (IsAction (table_view section.now.table.now)) }
    ensures refused { IfErr result (λ _. (action : Action) → ¬ IsAction (table_view section.now.table.now) action) }
{
    let node = section.name(Key::Node)?;
    Ok(Action::Flush { node })
}

fn shuffle(section: &Section<'_>) -> Result<Action, ScenarioError>
    requires { IsText (at_key Key.Do (table_view section.now.table.now)) (codes "shuffle") }
    ensures ok { IfOk result (IsAction (table_view section.now.table.now)) }
    ensures refused { IfErr result (λ _. (action : Action) → ¬ IsAction (table_view section.now.table.now) action) }
{
    let node = section.name(Key::Node)?;
    Ok(Action::Shuffle { node })
}

fn join(section: &Section<'_>) -> Result<Action, ScenarioError>
    requires { IsText (at_key Key.Do (table_view section.now.table.now)) (codes "join") }
    ensures ok { IfOk result (IsAction (table_view section.now.table.now)) }
    ensures refused { IfErr result (λ _. (action : Action) → ¬ IsAction (table_view section.now.table.now) action) }
{
    let node = section.name(Key::Node)?;
    let contact = section.name(Key::Contact)?;
    Ok(Action::Join { node, contact })
}

fn down(section: &Section<'_>) -> Result<Action, ScenarioError>
    requires { IsText (at_key Key.Do (table_view section.now.table.now)) (codes "down") }
    ensures ok { IfOk result (IsAction (table_view section.now.table.now)) }
    ensures refused { IfErr result (λ _. (action : Action) → ¬ IsAction (table_view section.now.table.now) action) }
{
    let node = section.name(Key::Node)?;
    let peer = section.name(Key::Peer)?;
    Ok(Action::Down { node, peer })
}

fn stop(section: &Section<'_>) -> Result<Action, ScenarioError>
    requires { IsText (at_key Key.Do (table_view section.now.table.now)) (codes "stop") }
    ensures ok { IfOk result (IsAction (table_view section.now.table.now)) }
    ensures refused { IfErr result (λ _. (action : Action) → ¬ IsAction (table_view section.now.table.now) action) }
{
    let node = section.name(Key::Node)?;
    Ok(Action::Stop { node })
}
