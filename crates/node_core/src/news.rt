//! What a node tells of its active view: which neighbours came and went, and why.
ghost use Rattle.std.specs.Prelude.{◌≡◌, ◌++◌, IfOk, OnOk};
ghost use Rattle.std.specs.List.{flat_map};
ghost use Rattle.node_core.specs.News.{arrival_of, changes, departure_of};
ghost use Rattle.node_core.specs.News.{farewell_of, is_farewell, parting_of, turn_of};

use frames::{BodyOf, Frame};
use node_names::{NameSet, NodeName, has_name};
use protocol::{Stimulus, StimulusOf};
use std::alloc::{AllocError, Allocator};

/// Why a neighbour went.
#[derive(Clone, Copy, Debug, PartialEq, Eq)]
pub enum Parting {
    /// It said so: its DISCONNECT came, or its NEIGHBORREPLY that refuses.
    Left,
    /// The link to it failed.
    Failed,
    /// It was dropped for another name.
    Displaced,
}

/// A change of the active view.
#[derive(Clone, Copy, Debug, PartialEq, Eq)]
pub enum News {
    /// This name is a neighbour now.
    NeighborUp(NodeName),
    /// This name is a neighbour no longer.
    NeighborDown { name: NodeName, why: Parting },
    /// The last neighbour went.
    Isolated,
    /// The active view was empty, and is so no longer.
    Joined,
}

/// A name of which a stimulus itself says that it goes, and why.
#[derive(Clone, Copy)]
pub struct Farewell {
    /// The name.
    pub name: NodeName,
    /// Why it goes.
    pub why: Parting,
}

/// Whether a packet says that its sender is a neighbour no longer.
fn is_farewell<A: Allocator>(frame: &Frame<A>) -> bool
    ensures { result ≡ is_farewell frame.now.body }
{
    matches!(
        frame.body(),
        BodyOf::Disconnect | BodyOf::NeighborReply { accepted: false }
    )
}

/// The name of which the stimulus itself says that it goes, and why.
pub fn farewell_of<A: Allocator>(stimulus: &Stimulus<Frame<A>, A>) -> Option<Farewell>
    ensures { result ≡ farewell_of stimulus.now }
{
    match stimulus {
        StimulusOf::Down { peer, .. } => Some(Farewell {
            name: *peer,
            why: Parting::Failed,
        }),
        StimulusOf::Arrive { sender, note, .. } => is_farewell(note).then_some(Farewell {
            name: sender.name,
            why: Parting::Left,
        }),
        _ => None,
    }
}

/// Why the name went.
fn parting_of(farewell: &Option<Farewell>, name: &NodeName) -> Parting
    ensures { result ≡ parting_of farewell.now name.now }
{
    match farewell {
        Some(farewell) if farewell.name == *name => farewell.why,
        _ => Parting::Displaced,
    }
}

/// Appends that the name went, unless it is left.
fn add_departure<A: Allocator>(
    news: &mut Vec<News, A>,
    farewell: &Option<Farewell>,
    left: &NameSet<A>,
    name: NodeName,
) -> Result<(), AllocError>
    ensures { OnOk result (news.new.items ≡ news.old.items ++ departure_of farewell.now left.now.keys name) }
{
    if !left.contains(&name) {
        let why = parting_of(farewell, &name);
        news.push(News::NeighborDown { name, why })?;
    }
    Ok(())
}

/// Appends which of the names went, that is, are not left.
fn add_departures<A: Allocator>(
    news: &mut Vec<News, A>,
    farewell: &Option<Farewell>,
    left: &NameSet<A>,
    names: &[NodeName],
) -> Result<(), AllocError>
    ensures { OnOk result
        (news.new.items ≡ news.old.items ++ flat_map (departure_of farewell.now left.now.keys) names.now) }
{
    for name in names {
        add_departure(news, farewell, left, *name)?;
    }
    Ok(())
}

/// Appends that the name came, unless it was there before.
fn add_arrival<A: Allocator>(
    news: &mut Vec<News, A>,
    before: &[NodeName],
    name: NodeName,
) -> Result<(), AllocError>
    ensures { OnOk result (news.new.items ≡ news.old.items ++ arrival_of before.now name) }
{
    if !has_name(before, &name) {
        news.push(News::NeighborUp(name))?;
    }
    Ok(())
}

/// Appends which of the names came, that is, were not there before.
fn add_arrivals<A: Allocator>(
    news: &mut Vec<News, A>,
    before: &[NodeName],
    names: &[NodeName],
) -> Result<(), AllocError>
    ensures { OnOk result (news.new.items ≡ news.old.items ++ flat_map (arrival_of before.now) names.now) }
{
    for name in names {
        add_arrival(news, before, *name)?;
    }
    Ok(())
}

/// Appends that a view became empty, or is so no longer.
fn add_turn<A: Allocator>(
    news: &mut Vec<News, A>,
    before: &[NodeName],
    after: &[NodeName],
) -> Result<(), AllocError>
    ensures { OnOk result (news.new.items ≡ news.old.items ++ turn_of before.now after.now) }
{
    match (before, after) {
        ([], [_, ..]) => news.push(News::Joined)?,
        ([_, ..], []) => news.push(News::Isolated)?,
        _ => {}
    }
    Ok(())
}

/// The news of a step that changed the active view: those that went, in the order of the view before; those that came,
/// in the order of the view after; and last, whether the view became empty or is so no longer. The only error is that
/// memory is refused.
pub fn changes_of<A: Allocator + Copy>(
    alloc: A,
    farewell: &Option<Farewell>,
    before: &[NodeName],
    active: &NameSet<A>,
) -> Result<Vec<News, A>, AllocError>
    ensures { IfOk result (λ news. news.items ≡ changes farewell.now before.now active.now.keys) }
{
    let mut news = Vec::new(alloc);
    add_departures(&mut news, farewell, active, before)?;
    add_arrivals(&mut news, before, active.as_slice())?;
    add_turn(&mut news, before, active.as_slice())?;
    Ok(news)
}
