//! The close of a node, with each of its allocations refused in turn: it fails as out of memory, and hands back the
//! whole trace.
use crate::tests::ends::{
    ONE_BROADCAST, broadcast_by_each, close_without_ports, start_with_other_port,
};
use crate::tests::node::{Node, TestedCore, close, start};
use node_core::PlumCore;
use node_threads::{HostError, NodeCore};
use refusing_allocator::RefusingAllocator;
use std::alloc::{AllocError, Allocator};
use std::process::Abort;
use std::sync::Wait;
use std::test::Fail;
use std::thread::Threads;
use test_support::{stop_refusing, sweep};

/// Closes a node while allocation number `n` is refused. Returns whether there is such an allocation, or `None` if the
/// answer is not `refused` with it and `unrefused` without it. Replaces the text with the answer.
fn refuse_close<C: NodeCore<A> + Drop, R: Threads + Wait, A: Allocator + Copy>(
    rt: &R,
    heap: &RefusingAllocator,
    text: &mut String,
    node: Node<C, A>,
    answers: [&str; 2],
    n: u64,
) -> Result<Option<bool>, AllocError> {
    heap.refuse(n);
    close(rt, text, node)?;
    let is_spent = stop_refusing(heap);
    let [unrefused, refused] = answers;
    let wanted = if is_spent { refused } else { unrefused };
    Ok((text.as_str() == wanted).then_some(is_spent))
}

/// Broadcasts once through a fresh node, and closes it while allocation number `n` is refused. Returns whether there is
/// such an allocation, or `None` if the answer is wrong.
fn refuse_of_fresh<C, R, A>(
    rt: &R,
    heap: &RefusingAllocator,
    alloc: A,
    text: &mut String,
    n: u64,
) -> Result<Option<bool>, HostError>
where
    C: TestedCore<A> + Drop,
    R: Threads + Wait + Abort,
    A: Allocator + Copy,
{
    let mut node: Node<C, A> = start(rt, alloc, "a", "", 1)?;
    broadcast_by_each(rt, alloc, node.ports.as_mut_slice())?;
    let refused = "out of memory: a/1 among | broadcast hello; a/1 delivers a/1/1 hello";
    Ok(refuse_close(rt, heap, text, node, [ONE_BROADCAST, refused], n)?)
}

#[test]
fn each_allocation_of_a_close(rt: HostRuntime) -> Result<(), Fail> {
    let heap = RefusingAllocator::new(rt.alloc());
    let mut text = String::new(rt.alloc());
    let refused = sweep(|n| {
        refuse_of_fresh::<PlumCore<&RefusingAllocator>, _, _>(&rt, &heap, &heap, &mut text, n)
    })?;
    assert!(rt;
        refused.is_some_and(|count| count >= 2),
        "{refused:?} were refused: {text}"
    );
    Ok(())
}

/// Closes a node without its port while the very next allocation would be refused, and then with the port of another
/// node while allocation number `n` is refused. Returns whether there is such an allocation, or `None` if the first
/// close allocates or does not hand the node back, or the second answer is wrong.
fn refuse_of_two<C, R, A>(
    rt: &R,
    heap: &RefusingAllocator,
    alloc: A,
    text: &mut String,
    n: u64,
) -> Result<Option<bool>, HostError>
where
    C: TestedCore<A> + Drop,
    R: Threads + Wait + Abort,
    A: Allocator + Copy,
{
    let node: Node<C, A> = start_with_other_port(rt, alloc)?;
    heap.refuse(1);
    let node = close_without_ports(rt, alloc, node);
    let is_spent = stop_refusing(heap);
    match node {
        Some(node) if !is_spent => {
            let answers = ["unlike at 0: a/1 among", "out of memory: a/1 among"];
            Ok(refuse_close(rt, heap, text, node, answers, n)?)
        }
        _ => Ok(None),
    }
}

/// A close without a port needs no memory. A close with the port of another node finds that the receipts do not match
/// the trace, unless memory runs out.
#[test]
fn each_allocation_of_swapped_ports(rt: HostRuntime) -> Result<(), Fail> {
    let heap = RefusingAllocator::new(rt.alloc());
    let mut text = String::new(rt.alloc());
    let refused = sweep(|n| {
        refuse_of_two::<PlumCore<&RefusingAllocator>, _, _>(&rt, &heap, &heap, &mut text, n)
    })?;
    assert!(rt;
        refused.is_some_and(|count| count >= 1),
        "{refused:?} were refused: {text}"
    );
    Ok(())
}
