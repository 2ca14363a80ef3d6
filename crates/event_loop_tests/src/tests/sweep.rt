//! Greetings in which each allocation is refused in turn.
use crate::tests::greeting::greet;
use crate::tests::refused_node::RefusedNode;
use anyhow::Result;
use event_loop::LoopNode;
use loop_ports::PortNode;
use refusing_allocator::RefusingAllocator;
use std::alloc::Allocator;
use std::net::Net;
use wire_node::WireNode;

/// More allocations than the greetings make.
const MANY: u64 = 10_000;

/// Has two nodes greet each other while allocation number `n` is refused. Returns whether there is such an allocation,
/// or `None` if not each heard both messages once.
fn try_one<N, R, A>(rt: &R, heap: &RefusingAllocator, alloc: A, n: u64) -> Result<Option<bool>>
where
    N: LoopNode<A> + PortNode<A> + RefusedNode<A>,
    R: Net,
    A: Allocator + Copy,
{
    let heard = greet::<N, R, A>(rt, heap, alloc, n)?;
    let is_spent = heap.is_spent();
    heap.refuse(0);
    Ok((heard == 4).then_some(is_spent))
}

/// Refuses each allocation in turn. Returns how many there are, if each node heard both messages once whichever was
/// refused.
fn sweep<N, R, A>(rt: &R, heap: &RefusingAllocator, alloc: A) -> Result<Option<u64>>
where
    N: LoopNode<A> + PortNode<A> + RefusedNode<A>,
    R: Net,
    A: Allocator + Copy,
{
    for n in 1..MANY {
        match try_one::<N, R, A>(rt, heap, alloc, n)? {
            Some(true) => {}
            Some(false) => return Ok(Some(n - 1)),
            None => return Ok(None),
        }
    }
    Ok(None)
}

#[test]
fn nodes_greet_each_other_whatever_allocation_is_refused(rt: HostRuntime) -> Result<()> {
    let heap = RefusingAllocator::new(rt.alloc());
    let swept = sweep::<WireNode<&RefusingAllocator>, HostRuntime, &RefusingAllocator>(
        &rt, &heap, &heap,
    )?;
    assert!(rt;
        swept.is_some_and(|count| count > 20),
        "allocations: {swept:?}"
    );
    Ok(())
}
