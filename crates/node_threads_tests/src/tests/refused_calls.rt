//! The start and the broadcasts of a node, with each of their allocations refused in turn: the call fails as out of
//! memory, and when made again it answers as if nothing had been refused.
use crate::tests::ends::{ONE_BROADCAST, broadcast};
use crate::tests::node::{Node, TestedCore, close, name, start};
use bytes::Bytes;
use node_core::PlumCore;
use node_threads::{HostError, NodeCore, Port, Receipt};
use protocol::CoreError;
use refusing_allocator::RefusingAllocator;
use std::alloc::{AllocError, Allocator};
use std::process::Abort;
use std::sync::Wait;
use std::test::Fail;
use std::thread::Threads;
use test_support::{message, refusal_of, retry, stop_refusing, sweep};

/// Whether a start failed as out of memory, in the core or after it.
fn is_out_of_memory(error: HostError) -> bool {
    matches!(
        error,
        HostError::OutOfMemory | HostError::Refused(CoreError::OutOfMemory)
    )
}

/// Starts the node while allocation number `n` is refused, and again if that failed. Returns whether there is such an
/// allocation, or `None` if something is wrong.
fn refuse_start<C: TestedCore<A> + Drop, R: Abort, A: Allocator + Copy>(
    rt: &R,
    heap: &RefusingAllocator,
    alloc: A,
    n: u64,
) -> Option<bool> {
    let call = || refusal_of::<Node<C, A>, HostError>(start(rt, alloc, "a", "", 1));
    retry(heap, n, call, is_out_of_memory)
}

#[test]
fn each_allocation_of_a_start(rt: HostRuntime) -> Result<(), Fail> {
    let heap = RefusingAllocator::new(rt.alloc());
    let refused = sweep(|n| {
        Ok::<_, HostError>(refuse_start::<PlumCore<&RefusingAllocator>, _, _>(&rt, &heap, &heap, n))
    })?;
    // The list of writers' places, the block that host and ports share, and the list of ports. Without peers everything
    // else starts empty, and no thread is started.
    assert!(rt;
        refused == Some(3),
        "other allocations were refused, or a wrong answer: {refused:?}"
    );
    Ok(())
}

/// Broadcasts through a port while allocation number `n` is refused, and again if that failed. Returns whether there is
/// such an allocation, or `None` if the port does not answer `wanted`.
fn refuse_broadcast<R: Wait, C: NodeCore<A> + Drop, A: Allocator + Copy>(
    rt: &R,
    heap: &RefusingAllocator,
    alloc: A,
    port: &mut Port<C, A>,
    wanted: Result<Receipt, HostError>,
    n: u64,
) -> Result<Option<bool>, AllocError> {
    let payload = Bytes::copy_from_slice(alloc, b"hello")?;
    heap.refuse(n);
    let answer = port.broadcast(rt, payload);
    let is_spent = stop_refusing(heap);
    let is_right = if is_spent {
        answer == Err(HostError::OutOfMemory)
            && port.calls().is_empty()
            && broadcast(rt, alloc, port) == wanted
    } else {
        answer == wanted
    };
    Ok(is_right.then_some(is_spent))
}

/// Calls `refuse_broadcast` with the first port of a node.
fn refuse_by_first<R: Wait, C: NodeCore<A> + Drop, A: Allocator + Copy>(
    rt: &R,
    heap: &RefusingAllocator,
    alloc: A,
    ports: &mut [Port<C, A>],
    wanted: Result<Receipt, HostError>,
    n: u64,
) -> Result<Option<bool>, AllocError> {
    match ports.first_mut() {
        Some(port) => refuse_broadcast(rt, heap, alloc, port, wanted, n),
        None => Ok(None),
    }
}

/// Returns the receipt of the node's first broadcast, or that the node was stopped.
fn answer(rt: &impl Abort, is_stopped: bool) -> Result<Receipt, HostError> {
    if is_stopped {
        return Err(HostError::Closed);
    }
    Ok(Receipt {
        id: message(name(rt, "a"), 1),
        place: 0,
    })
}

/// Calls `refuse_by_first` with a fresh node, which it stops before if `is_stopped`, and then closes the node. Replaces
/// the text with what the node leaves.
fn refuse_of_fresh<C, R, A>(
    rt: &R,
    heap: &RefusingAllocator,
    alloc: A,
    text: &mut String,
    is_stopped: bool,
    n: u64,
) -> Result<Option<bool>, HostError>
where
    C: TestedCore<A> + Drop,
    R: Threads + Wait + Abort,
    A: Allocator + Copy,
{
    let mut node: Node<C, A> = start(rt, alloc, "a", "", 1)?;
    if is_stopped {
        node.host.stop(rt);
    }
    let wanted = answer(rt, is_stopped);
    let refused = refuse_by_first(rt, heap, alloc, node.ports.as_mut_slice(), wanted, n)?;
    close(rt, text, node)?;
    Ok(refused)
}

/// Calls `refuse_of_fresh`. Returns `None` also if the node does not leave what it should.
fn refuse<C, R, A>(
    rt: &R,
    heap: &RefusingAllocator,
    alloc: A,
    text: &mut String,
    is_stopped: bool,
    n: u64,
) -> Result<Option<bool>, HostError>
where
    C: TestedCore<A> + Drop,
    R: Threads + Wait + Abort,
    A: Allocator + Copy,
{
    let refused = refuse_of_fresh::<C, R, A>(rt, heap, alloc, text, is_stopped, n)?;
    let left = if is_stopped {
        "a/1 among | handed out 0"
    } else {
        ONE_BROADCAST
    };
    Ok(refused.filter(|_| text.as_str() == left))
}

/// The broadcast of a node makes its first step. The broadcast of a stopped node is refused because it was stopped.
#[test]
fn each_allocation_of_a_broadcast(rt: HostRuntime) -> Result<(), Fail> {
    let heap = RefusingAllocator::new(rt.alloc());
    let mut text = String::new(rt.alloc());
    // 1 each for the port's calls, deliveries, copied deliveries, waiting deliveries and steps, and 4 each for held
    // messages and known ids. A stopped node refuses as soon as the port has room for the call.
    for (is_stopped, wanted) in [(false, 13), (true, 1)] {
        let refused = sweep(|n| {
            refuse::<PlumCore<&RefusingAllocator>, _, _>(
                &rt, &heap, &heap, &mut text, is_stopped, n,
            )
        })?;
        assert!(rt; refused == Some(wanted), "{is_stopped}: {refused:?} {text}");
    }
    Ok(())
}
