//! The dice of the steps that a reader makes.
use crate::tests::node::{TestedCore, name};
use crate::tests::readers::read;
use bytes::Bytes;
use frames::{Body, Frame, encode};
use links::TapeReader;
use node_core::PlumCore;
use node_threads::{HostError, OpenGate};
use std::alloc::{AllocError, Global};
use std::process::Abort;
use std::sync::Wait;
use std::test::Fail;
use std::thread::Threads;
use std::time::Clock;
use test_support::first_run;

/// What the node leaves: it answers the JOIN over a link that it does not have, which a Down follows, and the end of
/// the link that it read is another Down.
const LEFT: &str =
    "a/1 among p | from n/1 n/1#1 Join by dice; to n a/1#1 Neighbor { high: true }; to p a/1#2 ForwardJoin { new: \"n\", ttl: 6 } | down n by dice | down n by dice | handed out 0";

/// Returns the bytes of a JOIN from the node with this name.
fn join_from(rt: &impl Abort, alloc: Global, text: &str) -> Result<Bytes, AllocError> {
    let sender = first_run(name(rt, text));
    let frame = Frame::new(sender, 1, Body::Join).expect(rt, "a frame");
    encode(alloc, &frame)
}

/// Lets a node read a JOIN. Returns whether its reader ends. Replaces the text with what the node leaves.
fn read_join<C, R>(rt: R, alloc: Global, text: &mut String) -> Result<bool, HostError>
where
    C: TestedCore<Global> + Drop + Send + 'static,
    R: Threads + Wait + Clock + Abort + Copy + Send + Drop + 'static,
{
    let tape = TapeReader::new(join_from(&rt, alloc, "n")?, Vec::new(alloc), None);
    read::<C, _, _>(rt, alloc, text, OpenGate, tape)
}

/// A JOIN arrives from a node to which no link is open, so a Down follows it, and then its link ends, which is another
/// Down. All three steps have the next dice of the reader's generator.
#[test]
fn a_reader_draws_all_dice(rt: HostRuntime) -> Result<(), Fail> {
    let mut text = String::new(rt.alloc());
    let has_ended = read_join::<PlumCore, _>(rt, rt.alloc(), &mut text)?;
    assert!(rt; has_ended && text.as_str() == LEFT, "{text}");
    Ok(())
}
