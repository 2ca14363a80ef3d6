//! Streams that end or fail within a frame: each frame before that is a step, and then the link of their sender is
//! down.
use crate::tests::node::{TestedCore, name};
use crate::tests::readers::read;
use crate::tests::tally::{Counting, Tally};
use bytes::Bytes;
use frames::{Body, Frame, encode};
use links::TapeReader;
use node_core::PlumCore;
use node_names::Origin;
use node_threads::HostError;
use std::alloc::{AllocError, Global};
use std::process::Abort;
use std::sync::Wait;
use std::test::Fail;
use std::thread::Threads;
use std::time::Clock;
use test_support::first_run;

/// The number of bytes of a PRUNE from a node whose name has one letter.
const FRAME: usize = 24;

/// How a stream ends that gives one byte per read.
#[derive(Clone, Copy)]
struct Ending {
    /// How many bytes arrive.
    len: usize,
    /// Whether the read after them fails. Otherwise the stream ends.
    is_fault: bool,
}

impl Ending {
    /// Returns how many steps are made: one for each whole frame, and a Down if there is a frame.
    fn steps(&self) -> u64 {
        match self.len / FRAME {
            0 => 0,
            1 => 2,
            _ => 3,
        }
    }

    /// Returns what a node leaves.
    fn left(&self) -> &'static str {
        match self.len / FRAME {
            0 => "a/1 among p | handed out 0",
            1 => "a/1 among p | from p/1 p/1#1 PRUNE by dice | down p by dice | handed out 0",
            _ => {
                "a/1 among p | from p/1 p/1#1 PRUNE by dice | from p/1 p/1#2 PRUNE by dice | down p by dice | handed out 0"
            }
        }
    }
}

/// Appends the bytes of a PRUNE with this number.
fn push_prune(
    rt: &impl Abort,
    alloc: Global,
    bytes: &mut Vec<u8>,
    sender: Origin,
    number: u64,
) -> Result<(), AllocError> {
    let frame = Frame::new(sender, number, Body::Prune).expect(rt, "a frame");
    bytes.extend_from_slice(encode(alloc, &frame)?.as_slice())?;
    Ok(())
}

/// Returns the first `len` bytes of two PRUNEs from a node.
fn prunes(rt: &impl Abort, alloc: Global, len: usize) -> Result<Bytes, AllocError> {
    let sender = first_run(name(rt, "p"));
    let mut bytes = Vec::new(alloc);
    push_prune(rt, alloc, &mut bytes, sender, 1)?;
    push_prune(rt, alloc, &mut bytes, sender, 2)?;
    bytes.truncate(len);
    Ok(Bytes::from_vec(bytes)?)
}

/// Makes a stream that ends in this way.
fn stream(rt: &impl Abort, alloc: Global, ending: Ending) -> Result<TapeReader, AllocError> {
    let bytes = prunes(rt, alloc, ending.len)?;
    let pieces = vec![in alloc; 1; 2 * FRAME]?;
    let fails = ending.is_fault.then_some(ending.len);
    Ok(TapeReader::new(bytes, pieces, fails))
}

/// Lets a node read a stream that ends in this way. Returns whether it makes and leaves the steps that it should.
fn is_read<C, R>(rt: R, alloc: Global, text: &mut String, ending: Ending) -> Result<bool, HostError>
where
    C: TestedCore<Global> + Drop + Send + 'static,
    R: Threads + Wait + Clock + Abort + Copy + Send + Drop + 'static,
{
    let tally = Tally::shared(alloc)?;
    let gate = Counting::new(&tally)?;
    let has_ended = read::<C, _, _>(rt, alloc, text, gate, stream(&rt, alloc, ending)?)?;
    Ok(has_ended && tally.steps() == ending.steps() && text.as_str() == ending.left())
}

/// Two frames of a peer, of which a number of bytes arrives before the stream ends, or before a read fails. Each whole
/// frame is a step, and if there is one, the last step is a Down of the peer, even if nothing of a further frame
/// arrived.
#[test]
fn failing_readers(rt: HostRuntime) -> Result<(), Fail> {
    let mut text = String::new(rt.alloc());
    for len in 0..=2 * FRAME {
        for is_fault in [false, true] {
            let ending = Ending { len, is_fault };
            let is_so = is_read::<PlumCore, _>(rt, rt.alloc(), &mut text, ending)?;
            assert!(rt; is_so, "{len} bytes, {is_fault}: {text}");
        }
    }
    Ok(())
}
