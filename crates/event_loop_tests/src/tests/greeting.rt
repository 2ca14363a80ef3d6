//! Two nodes of a loop that greet each other.
use crate::tests::pair::{Both, Pair, add, listen, say_at, tick, turn};
use crate::tests::refused_node::RefusedNode;
use anyhow::Result;
use event_loop::{EventLoop, LoopNode};
use loop_ports::PortNode;
use refusing_allocator::RefusingAllocator;
use std::alloc::Allocator;
use std::net::Net;

/// How many turns they may take.
const TURNS: usize = 1_000;

/// At each turn of this number a tick is made.
const TURNS_OF_A_TICK: usize = 8;

/// Makes turn number `count`. Returns how many messages both nodes delivered in it.
fn pass<N, R, A>(rt: &R, pair: &mut Pair<N, A>, count: usize) -> Result<usize>
where
    N: LoopNode<A> + PortNode<A>,
    R: Net,
    A: Allocator + Copy,
{
    turn(rt, pair)?;
    if count % TURNS_OF_A_TICK == 0 {
        tick(pair)?;
    }
    Ok(listen(pair, 0).saturating_add(listen(pair, 1)))
}

/// Makes turns until the two have delivered four messages, and a few ticks were made. Returns how many they delivered.
fn hear<N, R, A>(rt: &R, pair: &mut Pair<N, A>) -> Result<usize>
where
    N: LoopNode<A> + PortNode<A>,
    R: Net,
    A: Allocator + Copy,
{
    let mut heard: usize = 0;
    for count in 0..TURNS {
        heard = heard.saturating_add(pass(rt, pair, count)?);
        if heard >= 4 && count >= TURNS_OF_A_TICK {
            return Ok(heard);
        }
    }
    Ok(heard)
}

/// Adds both nodes, and has them greet each other while allocation number `n` is refused. Returns how many messages
/// they delivered.
fn greet_each_other<N, R, A>(
    rt: &R,
    heap: &RefusingAllocator,
    alloc: A,
    pair: &mut Pair<N, A>,
    n: u64,
) -> Result<usize>
where
    N: LoopNode<A> + PortNode<A> + RefusedNode<A>,
    R: Net,
    A: Allocator + Copy,
{
    add(rt, alloc, pair, 0)?;
    add(rt, alloc, pair, 1)?;
    heap.refuse(n);
    say_at(alloc, pair, 0)?;
    say_at(alloc, pair, 1)?;
    hear(rt, pair)
}

/// Has two nodes of a loop greet each other while allocation number `n` is refused. Returns how many messages they
/// delivered.
pub(crate) fn greet<N, R, A>(rt: &R, heap: &RefusingAllocator, alloc: A, n: u64) -> Result<usize>
where
    N: LoopNode<A> + PortNode<A> + RefusedNode<A>,
    R: Net,
    A: Allocator + Copy,
{
    let both = Both::new()?;
    let mut pair: Pair<N, A> = EventLoop::new(rt, alloc, both, 1)?;
    greet_each_other(rt, heap, alloc, &mut pair, n)
}
