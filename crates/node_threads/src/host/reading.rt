//! The worker that brings a link's frames to a node.
use crate::cores::NodeCore;
use crate::error::HostError;
use crate::host::Host;
use crate::host::basket::Basket;
use crate::host::gate::Gate;
use crate::host::stepper::Stepper;
use crate::host::worker::{Worker, start};
use frames::{Cutter, Frame};
use links::{LinkEnd, MeteredRead, pump};
use node_names::{Dice, NodeName};
use protocol::StimulusOf;
use rand_core::SeedableRng;
use rand_pcg::Lcg128Xsl64;
use std::alloc::Allocator;
use std::sync::Wait;
use std::thread::Threads;

/// What a reader knows of its link.
#[derive(Drop)]
struct Incoming<A: Allocator> {
    /// The bytes of a frame that is not whole yet.
    cutter: Cutter<A>,
    /// The sender of the last frame.
    sender: Option<NodeName>,
    generator: Lcg128Xsl64,
}

/// Lets the node take frames, one step each.
fn take_frames<R: Wait, C: NodeCore<A> + Drop, A: Allocator + Copy, G: Gate + Drop>(
    rt: &R,
    steps: &Stepper<C, A, G>,
    frames: Vec<Frame<A>, A>,
    link: &mut Incoming<A>,
) -> Result<(), HostError> {
    let Some(last) = frames.last() else {
        return Ok(());
    };
    link.sender = Some(last.sender().name);
    steps.take_frames(rt, frames, &mut link.generator)
}

/// The result of a reader whose link ended in this way: only a refusal of memory is an error.
fn read_result(end: LinkEnd) -> Result<(), HostError> {
    if end == LinkEnd::OutOfMemory {
        return Err(HostError::OutOfMemory);
    }
    Ok(())
}

/// Tells the node that the link is down, if a frame came over it.
fn end_link<R: Wait, C: NodeCore<A> + Drop, A: Allocator + Copy, G: Gate + Drop>(
    rt: &R,
    steps: &Stepper<C, A, G>,
    link: &mut Incoming<A>,
) -> Result<(), HostError> {
    let Some(peer) = link.sender else {
        return Ok(());
    };
    let dice = Dice::draw(&mut link.generator);
    let down = StimulusOf::Down { peer, dice };
    steps.apply_drawing(rt, down, &mut link.generator)
}

/// Brings frames to the node until the link ends or a step is refused.
fn read_frames<R, C, A, G, D>(
    rt: &R,
    steps: &Stepper<C, A, G>,
    mut reader: D,
    mut link: Incoming<A>,
) -> Result<(), HostError>
where
    R: Wait,
    C: NodeCore<A> + Drop,
    A: Allocator + Copy,
    G: Gate + Drop,
    D: MeteredRead + Drop,
{
    for _ in rt.forever() {
        let mut basket = Basket::new(steps.shared.alloc);
        let end = pump(&mut reader, &mut link.cutter, &mut basket, 1);
        take_frames(rt, steps, basket.into_frames(), &mut link)?;
        if end != LinkEnd::TurnLimit {
            end_link(rt, steps, &mut link)?;
            return read_result(end);
        }
        if steps.shared.is_stopped() {
            return Err(HostError::Closed);
        }
    }
    unreachable!()
}

/// Starts the worker that brings the frames of a link to the node. Bytes come from the reader, and each frame is one
/// step; the frames of one read are taken under one hold of the node's lock. Their dice, and those of the Downs that
/// follow them, are drawn from a generator with this seed.
///
/// It ends with the link, with the node, or at the first refusal; `Host::lacks_memory` tells whether memory was
/// refused. When the link ends, the core gets a Down of the peer that sent the last frame. Bytes that are not a frame
/// end the link. `Closed`: the node was stopped. `OutOfMemory`: an allocation is refused, or no thread can be made.
pub fn read_link<R, C, A, G, D>(
    rt: R,
    host: &Host<C, A>,
    gate: G,
    number: usize,
    reader: D,
    seed: u64,
) -> Result<Worker<A>, HostError>
where
    R: Threads + Wait + Copy + Send + 'static,
    C: NodeCore<A> + Drop + Send + 'static,
    A: Allocator + Copy + Send + Sync + 'static,
    G: Gate + Drop + Send + 'static,
    D: MeteredRead + Drop + Send + 'static,
{
    let steps = host.stepper(gate, number)?;
    let link = Incoming {
        cutter: Cutter::new(steps.shared.alloc),
        sender: None,
        generator: Lcg128Xsl64::seed_from_u64(seed),
    };
    let alloc = steps.shared.alloc;
    let worker = start(&rt, alloc, move || {
        let ended = read_frames(&rt, &steps, reader, link);
        steps.shared.note_end(ended);
    })?;
    Ok(host.employ(worker))
}
