//! The program that the loop calls for its node.
use crate::deliveries::IsPrinting;
use crate::error::NodeError;
use crate::incarnation::microseconds;
use crate::log::Log;
use crate::member::Member;
use crate::memory::resident_bytes;
use crate::page_server::PageServer;
use crate::recorded_node::RecordedNode;
use crate::recording::Recording;
use crate::status::StatusKeeper;
use cluster_node::{ClusterNode, Notice, SteppedNode};
use crossbeam_utils::sync::Unparker;
use event_loop::{Next, Program, Situation};
use loop_ports::{PortNode, Ports};
use node_options::Level;
use std::alloc::Global;
use std::fs::File;
use std::io::Eprint;
use std::rt::Files;
use std::sync::atomic::Ordering;
use std::time::Clock;
use std::{fmt, io};
use wire_node::{News, Parting};

/// What becomes of the neighbours of a node, as a line.
#[derive(Clone, Copy, Drop)]
struct NewsLine(News);

/// How a neighbour went.
fn parting_text(why: Parting) -> &'static str {
    match why {
        Parting::Left => "it left",
        Parting::Failed => "the link to it failed",
        Parting::Displaced => "it was dropped for another",
    }
}

impl fmt::Display for NewsLine {
    fn fmt<W: fmt::Write>(&self, f: &mut fmt::Formatter<W>) -> fmt::Result {
        match self.0 {
            News::NeighborUp(name) => write!(f, "{name} is a neighbour"),
            News::NeighborDown { name, why } => {
                let why = parting_text(why);
                write!(f, "{name} is no neighbour any more: {why}")
            }
            News::Isolated => f.write_str("no neighbour is left"),
            News::Joined => f.write_str("the node is in the group"),
        }
    }
}

/// How many notices were dropped, as a line.
#[derive(Clone, Copy, Drop)]
struct Dropped(usize);

impl fmt::Display for Dropped {
    fn fmt<W: fmt::Write>(&self, f: &mut fmt::Formatter<W>) -> fmt::Result {
        write!(f, "{} more lines are left out", self.0)
    }
}

/// How grave a notice is.
fn level_of(notice: &Notice) -> Level {
    match notice {
        Notice::SameName { .. } | Notice::Twice { .. } | Notice::OtherCluster { .. } =>
            Level::Error,
        Notice::Heard { .. } => Level::Debug,
        _ => Level::Info,
    }
}

/// Hands messages in and out, says what becomes of the node's links, and answers for it.
#[derive(Drop)]
pub(crate) struct Agent<R> {
    rt: R,
    ports: Ports,
    log: Log<R>,
    printer: Unparker<Global>,
    is_printing: IsPrinting,
    /// What it says of the node, if it is asked.
    status: Option<StatusKeeper>,
    /// The record of what the node takes, if there is one.
    recording: Option<Recording>,
}

impl<R: Clock + Eprint + Files<File = File> + Copy + Drop> Agent<R> {
    /// Makes the program of a node whose port is open.
    pub(crate) fn new(
        rt: R,
        ports: Ports,
        log: Log<R>,
        printer: Unparker<Global>,
        is_printing: IsPrinting,
        status: Option<StatusKeeper>,
        recording: Option<Recording>,
    ) -> Agent<R> {
        Agent {
            rt,
            ports,
            log,
            printer,
            is_printing,
            status,
            recording,
        }
    }

    /// Says what happens.
    pub(crate) fn log(&self) -> &Log<R> {
        &self.log
    }

    /// Whether what is delivered is printed still, as the thread that prints knows it too.
    pub(crate) fn printing(&self) -> &IsPrinting {
        &self.is_printing
    }

    /// Why the record could not be written, if that ended the node.
    pub(crate) fn record_error(&self) -> Option<io::Error> {
        self.recording.as_ref()?.error()
    }

    /// Whether what is delivered is printed still.
    pub(crate) fn is_printing(&self) -> bool {
        self.is_printing.load(Ordering::SeqCst)
    }

    /// Says what became of the node's links and neighbours.
    fn tell<N: SteppedNode<Global>>(&self, node: &mut ClusterNode<N>) {
        let (notices, dropped) = node.take_notices();
        for notice in &notices {
            self.log.say(level_of(notice), notice);
        }
        if dropped > 0 {
            self.log.say(Level::Info, &Dropped(dropped));
        }
        if let Ok(news) = node.take_news() {
            for change in &news {
                self.log.say(Level::Info, &NewsLine(*change));
            }
        }
    }
}

impl<R: Clock + Eprint + Files<File = File> + Copy + Drop> Agent<R> {
    /// Records what the node took since its last turn. Returns whether that was something.
    pub(crate) fn record<N: SteppedNode<Global>>(&mut self, node: &mut ClusterNode<N>) -> bool {
        let Some(recording) = &mut self.recording else {
            return false;
        };
        let now = microseconds(&self.rt).unwrap_or(0);
        match recording.record(&self.rt, node, now) {
            Ok(is_some) => is_some,
            Err(error) => {
                self.log.say(Level::Error, &NodeError::Record(error));
                false
            }
        }
    }

    /// Writes to the disk what was recorded.
    pub(crate) fn end_record(&mut self) {
        if let Some(recording) = &mut self.recording {
            recording.end();
        }
    }

    /// Takes messages to be broadcast, and hands deliveries out. Where the node is recorded, its steps are recorded
    /// before that, and before their frames are sent.
    fn turn_ports<N: SteppedNode<Global>>(
        &mut self,
        at: Situation,
        node: &mut ClusterNode<N>,
    ) -> Next {
        let Some(recording) = &mut self.recording else {
            return self.ports.turn(at, node);
        };
        let mut recorded = RecordedNode {
            rt: self.rt,
            node,
            recording,
            error: None,
        };
        let next = self.ports.turn(at, &mut recorded);
        recorded.record();
        if let Some(error) = recorded.error {
            self.log.say(Level::Error, &NodeError::Record(error));
        }
        if recorded.recording.may_go_on() {
            next
        } else {
            Next::End
        }
    }

    /// Serves the node.
    fn turn_node<N: SteppedNode<Global>>(
        &mut self,
        at: Situation,
        node: &mut ClusterNode<N>,
    ) -> Next {
        self.tell(node);
        let next = self.turn_ports(at, node);
        self.printer.unpark();
        self.look(node);
        if self.is_printing() { next } else { Next::End }
    }

    /// Looks at the node for those who ask, once a tick.
    fn look<N: SteppedNode<Global>>(&mut self, node: &ClusterNode<N>) {
        if let Some(status) = &mut self.status
            && status.is_old(node.node().ticks())
        {
            let now = microseconds(&self.rt).unwrap_or(0);
            let memory_bytes = resident_bytes(&self.rt, status.alloc());
            status.look(node, now, memory_bytes);
        }
    }

    /// Answers what was asked of the node, and ends it if that was asked.
    fn turn_pages(&self, pages: &mut PageServer) -> Next {
        if let Some(keeper) = &self.status
            && let Some(status) = keeper.latest()
        {
            pages.serve(status);
        }
        if pages.is_stopped() {
            Next::End
        } else {
            Next::Wait
        }
    }
}

impl<R, N> Program<Member<N>> for Agent<R>
where
    R: Clock + Eprint + Files<File = File> + Copy + Drop,
    N: SteppedNode<Global>,
{
    fn turn(&mut self, at: Situation, member: &mut Member<N>) -> Next {
        match member {
            Member::Node(node) => self.turn_node(at, node),
            Member::Pages(pages) => self.turn_pages(pages),
        }
    }
}
