//! Calls of a node of bytes, as a case of nodes has them.
use crate::sending::{push_heard, push_lost, push_sent};
use crate::stepping_node::SteppingNode;
use crate::steps::push_steps;
use anyhow::{Context, Result, bail};
use bytes::Bytes;
use node_names::{MsgId, NodeName};
use std::alloc::{AllocError, Global};
use wire_node::{ConnectionId, ReceiveError, WireError};

/// The name of the node.
const ME: &[u8] = b"c";

/// Appends what a call answers that returns nothing.
fn push_done(text: &mut String, done: &Result<(), WireError>) -> Result<(), AllocError> {
    match done {
        Ok(()) => text.push_str("done"),
        Err(error) => write!(text, "{error}"),
    }
}

/// Appends what the call answers that takes bytes.
fn push_received(text: &mut String, done: &Result<(), ReceiveError>) -> Result<(), AllocError> {
    match done {
        Ok(()) => text.push_str("done"),
        Err(ReceiveError { taken, error }) => write!(text, "{error} after {taken}"),
    }
}

/// Appends the number of a connection.
fn push_accepted(
    text: &mut String,
    accepted: &Result<ConnectionId, WireError>,
) -> Result<(), AllocError> {
    match accepted {
        Ok(id) => write!(text, "connection {}", id.0),
        Err(error) => write!(text, "{error}"),
    }
}

/// Appends the id of a message.
fn push_said(text: &mut String, said: &Result<MsgId, WireError>) -> Result<(), AllocError> {
    match said {
        Ok(id) => write!(text, "message {id}"),
        Err(error) => write!(text, "{error}"),
    }
}

/// Makes a payload of so many zeros.
fn zeros(alloc: Global, len: usize) -> Result<Bytes, AllocError> {
    let zeros = vec![in alloc; 0; len]?;
    Bytes::copy_from_slice(alloc, zeros.as_slice())
}

/// Has bytes come over a connection, and appends what is answered.
fn give<N: SteppingNode>(
    alloc: Global,
    text: &mut String,
    node: &mut N,
    id: &str,
    digits: &str,
) -> Result<()> {
    let id = ConnectionId(id.parse()?);
    let bytes = hex::decode(alloc, digits)?;
    push_received(text, &node.receive(id, bytes.as_slice()))?;
    Ok(())
}

/// Broadcasts a message of so many zeros, and appends what is answered.
fn say<N: SteppingNode>(alloc: Global, text: &mut String, node: &mut N, len: &str) -> Result<()> {
    let payload = zeros(alloc, len.parse()?)?;
    push_said(text, &node.broadcast(payload))?;
    Ok(())
}

/// Makes a call that has an argument, and appends what is answered.
fn call_with<N: SteppingNode>(
    alloc: Global,
    text: &mut String,
    node: &mut N,
    verb: &str,
    word: &str,
) -> Result<()> {
    match verb {
        "end" => push_done(text, &node.ended(ConnectionId(word.parse()?)))?,
        "lose" => push_done(text, &node.unreachable(NodeName::parse(word.as_bytes())?))?,
        "join" => push_done(text, &node.join(NodeName::parse(word.as_bytes())?))?,
        "send" => push_sent(alloc, text, node, word.parse()?)?,
        "say" => say(alloc, text, node, word)?,
        _ => bail!("no call {verb}"),
    }
    Ok(())
}

/// Makes a call without an argument, and appends what is answered.
fn call_alone<N: SteppingNode>(
    alloc: Global,
    text: &mut String,
    node: &mut N,
    verb: &str,
) -> Result<()> {
    match verb {
        "accept" => push_accepted(text, &node.accept())?,
        "tick" => push_done(text, &node.tick())?,
        "hear" => push_heard(alloc, text, node)?,
        "lost" => push_lost(text, node)?,
        _ => bail!("no call {verb}"),
    }
    Ok(())
}

/// Makes a call, and appends what is answered.
fn call<N: SteppingNode>(alloc: Global, text: &mut String, node: &mut N, call: &str) -> Result<()> {
    let words: Vec<&str> = call.split(':').collect(alloc)?;
    match words.as_slice() {
        [verb] => call_alone(alloc, text, node, verb),
        [verb, word] => call_with(alloc, text, node, verb, word),
        ["give", id, digits] => give(alloc, text, node, id, digits),
        _ => bail!("no call {call}"),
    }
}

/// Makes calls, and appends what each answers and the steps that it makes.
fn call_all<N: SteppingNode>(
    alloc: Global,
    text: &mut String,
    node: &mut N,
    calls: &str,
) -> Result<()> {
    for word in calls.split(' ') {
        call(alloc, text, node, word)?;
        push_steps(alloc, text, node.take_steps().steps.as_slice())?;
        text.push_str("; ")?;
    }
    Ok(())
}

/// Starts a node and makes calls, which are separated by blanks: `accept`, `give:1:DIGITS`, `end:1`, `say:LENGTH`,
/// `lose:NAME`, `join:NAME`, `tick`, `send:MOST`, `hear` and `lost`. Before them stands how many bytes may wait for a
/// name. Appends what each call answers and the steps that it makes.
pub(crate) fn push_called<N: SteppingNode>(
    alloc: Global,
    text: &mut String,
    line: &str,
) -> Result<()> {
    let (waiting, calls) = line.split_once(' ').context("no calls")?;
    let waiting: usize = waiting.parse()?;
    let mut node = N::begin(alloc, NodeName::parse(ME)?, waiting)?;
    call_all(alloc, text, &mut node, calls)
}
