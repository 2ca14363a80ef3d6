//! A node of a running group.
use crate::common::Common;
use crate::engine::Engine;
use crate::error::RunError;
use crate::inbox::{Inbox, ToInbox};
use crate::machine::Machine;
use crate::ports::broadcast;
use crate::shortage::Shortage;
use crate::speech::Speech;
use node_names::NodeName;
use node_threads::{HostError, NodeCore, Port};
use std::alloc::Global;
use std::net::TcpListener;
use std::sync::{Arc, Wait};

/// A running node, what it is to broadcast, and what it delivered.
#[derive(Drop)]
pub(crate) struct Node<C: NodeCore<Global> + Drop> {
    pub(crate) name: NodeName,
    pub(crate) engine: Engine<C>,
    pub(crate) ports: Vec<Port<C>>,
    pub(crate) speech: Speech,
    pub(crate) inbox: Arc<Inbox, Global>,
}

impl<C: NodeCore<Global> + Drop + Send + 'static> Node<C> {
    /// Starts the threads that take connections, hand deliveries out and keep the time.
    pub(crate) fn start_threads<R>(
        &mut self,
        common: &mut Common<R>,
        listener: TcpListener,
        ticks: u32,
    ) -> Result<(), RunError>
    where
        R: Machine,
    {
        let started = self.employ_all(common, listener, ticks);
        self.name_shortage(started)
    }

    /// Starts the threads.
    fn employ_all<R>(
        &mut self,
        common: &mut Common<R>,
        listener: TcpListener,
        ticks: u32,
    ) -> Result<(), Shortage>
    where
        R: Machine,
    {
        let to = ToInbox {
            rt: common.rt,
            start: self.speech.start(),
            inbox: Arc::try_clone(&self.inbox)?,
        };
        self.engine
            .start_threads(common, listener, to, u64::from(ticks))
    }

    /// Makes one turn: threads that have ended are joined, the node broadcasts at most `most` messages, and its new
    /// connections and links get threads. Returns whether there was anything to do besides joining.
    pub(crate) fn turn<R>(&mut self, common: &mut Common<R>, most: usize) -> Result<bool, RunError>
    where
        R: Machine,
    {
        let done = self.do_turn(common, most);
        let has_more = !self.is_said();
        let is_busy = self.name_shortage(done)?;
        Ok(is_busy || has_more)
    }

    /// Does a turn, and returns whether a connection or a link got a thread.
    fn do_turn<R>(&mut self, common: &mut Common<R>, most: usize) -> Result<bool, Shortage>
    where
        R: Machine,
    {
        let are_read = self.engine.read_links(common)?;
        self.speak(&common.rt, most)?;
        let are_written = self.engine.write_links(common)?;
        Ok(are_read || are_written)
    }

    /// Broadcasts at most `most` of the next texts through the first of the node's ports, until one is refused.
    fn speak<R: Machine>(&mut self, rt: &R, most: usize) -> Result<(), Shortage> {
        for _ in 0..Speech::TEXTS.min(most) {
            let Some(text) = self.speech.take_next() else {
                return Ok(());
            };
            let at = self.speech.now(rt);
            match broadcast(rt, self.ports.as_mut_slice(), text) {
                Ok(id) => self.speech.note(id, at)?,
                Err(HostError::OutOfMemory) => return Err(Shortage::Memory),
                Err(why) => self.speech.refuse(self.name, why),
            }
        }
        Ok(())
    }
}

impl<C: NodeCore<Global> + Drop> Node<C> {
    /// Returns the result of a call, where a shortage becomes an error that names this node.
    fn name_shortage<T: Drop>(&self, done: Result<T, Shortage>) -> Result<T, RunError> {
        match done {
            Ok(answer) => Ok(answer),
            Err(of) => Err(RunError::short(self.name, of)),
        }
    }

    /// Returns an error if its threads had a shortage, or, at the end of the run, still have one.
    pub(crate) fn check(&self, is_last: bool) -> Result<(), RunError> {
        self.name_shortage(self.engine.check(is_last))
    }

    /// Whether it has nothing more to broadcast.
    pub(crate) fn is_said(&self) -> bool {
        self.speech.is_over()
    }

    /// How many messages it delivered.
    pub(crate) fn delivered<R: Wait>(&self, rt: &R) -> usize {
        self.inbox.len(rt)
    }
}
