//! The program that has the nodes broadcast, disturbs them, and looks at what they deliver.
use crate::board::Board;
use crate::dice::Dice;
use crate::group::{Book, NODES};
use crate::plan::{Phase, Plan, TICKS_OF_A_SECOND};
use crate::soak_node::SoakNode;
use crate::strangers::{DEAF, Strangers};
use crate::telling::{tell_end, tell_second};
use crate::trouble::Trouble;
use crate::view_watch::Views;
use anyhow::Result;
use event_loop::{EventLoop, Next, Program, Situation};
use node_names::NodeName;
use std::alloc::Global;
use std::io::Print;
use std::net::Net;
use std::rt::Files;

/// Of so many ticks of a node one broadcasts, while the nodes are disturbed.
const SPEECH: u64 = 4;

/// Has the nodes broadcast, disturbs them, and looks at what they deliver.
#[derive(Drop)]
pub(crate) struct Soak<'a, R> {
    rt: &'a R,
    plan: Plan,
    names: Vec<NodeName>,
    dice: Dice,
    board: Board,
    views: Views,
    trouble: Trouble,
    /// The last tick of each node.
    ticked: Vec<u64>,
    /// What ended it sooner.
    result: Result<()>,
}

impl<'a, R: Net + Files + Print + AllocGlobal> Soak<'a, R> {
    /// Makes what runs the nodes of these names.
    pub(crate) fn new(
        rt: &'a R,
        alloc: Global,
        names: Vec<NodeName>,
        plan: Plan,
        seed: u64,
    ) -> Result<Soak<'a, R>> {
        let strangers = Strangers::new(rt, alloc)?;
        Ok(Soak {
            rt,
            plan,
            names,
            dice: Dice::new(seed),
            board: Board::new(alloc)?,
            views: Views::new(alloc)?,
            trouble: Trouble::new(alloc, strangers)?,
            ticked: Vec::from_elem(alloc, 0, NODES)?,
            result: Ok(()),
        })
    }

    /// Notes where the nodes take connections, and tells them where the peer does that takes nothing.
    pub(crate) fn meet<N: SoakNode>(&mut self, group: &mut EventLoop<N, Book>) -> Result<()> {
        for place in 0..NODES {
            self.trouble.note(group.address(place)?)?;
        }
        let at = self.trouble.strangers().deaf_at()?;
        group.resolver_mut().note(NodeName::parse(DEAF)?, at)?;
        Ok(())
    }

    /// What ended it, if something is wrong. It tells what became of the run.
    pub(crate) fn end(self) -> Result<()> {
        let lacking = self.board.lacking(&self.views);
        self.result?;
        if self.plan.is_measured {
            println!(self.rt; "in peace in round {}", self.plan.rounds)?;
        }
        tell_end(self.rt, &self.board, &self.trouble, lacking)
    }

    /// Takes what the node at this place delivered.
    fn listen<N: SoakNode>(&mut self, place: usize, node: &mut N) -> Result<()> {
        for message in &node.take_deliveries() {
            self.board
                .note_heard(self.names.as_slice(), place, message)?;
        }
        Ok(())
    }

    /// Has the node at this place broadcast its next message.
    fn speak<N: SoakNode>(&mut self, place: usize, node: &mut N) -> Result<()> {
        let payload = self.board.next_payload(place)?;
        node.broadcast(&payload)?;
        self.board.note_said(place);
        Ok(())
    }

    /// Whether the node at this place has made a tick since it was asked last.
    fn has_ticked(&mut self, place: usize, now: u64) -> bool {
        match self.ticked.get_mut(place) {
            Some(ticked) if *ticked < now => {
                *ticked = now;
                true
            }
            _ => false,
        }
    }

    /// Disturbs the node at this place, or not, and has it broadcast, or not.
    fn trouble<N: SoakNode>(
        &mut self,
        place: usize,
        node: &mut N,
        now: u64,
        may_speak: bool,
    ) -> Result<()> {
        self.trouble.disturb(
            self.rt,
            &mut self.dice,
            self.names.as_slice(),
            place,
            node,
            now,
        )?;
        if may_speak && self.dice.once_in(SPEECH) {
            self.speak(place, node)?;
        }
        Ok(())
    }

    /// Does what is to be done with the node at this place at a tick.
    fn act<N: SoakNode>(
        &mut self,
        place: usize,
        node: &mut N,
        now: u64,
        may_speak: bool,
    ) -> Result<()> {
        self.views.note(self.names.as_slice(), place, node, now);
        match self.plan.phase(now) {
            Phase::Trouble => self.trouble(place, node, now, may_speak),
            Phase::Speech => self.speak(place, node),
            Phase::Calm | Phase::Rest | Phase::Late => Ok(()),
        }
    }

    /// Whether all is delivered that is to be, or it took too long. Where a view moved meanwhile, another round begins.
    fn is_over(&mut self, now: u64) -> bool {
        match self.plan.phase(now) {
            Phase::Trouble | Phase::Speech => false,
            Phase::Calm => {
                self.trouble.end();
                self.board.begin();
                false
            }
            Phase::Rest if self.views.moved() >= self.plan.begin() => !self.plan.begin_again(now),
            Phase::Rest => self.board.lacking(&self.views) == 0,
            Phase::Late => true,
        }
    }

    /// Tells at each second what the process uses, if that is measured.
    fn tell(&self, now: u64) -> Result<()> {
        if self.plan.is_measured && now % TICKS_OF_A_SECOND == 0 {
            tell_second(self.rt, now, &self.board, &self.trouble)?;
        }
        Ok(())
    }

    /// Does what is to be done for the node at this place. Returns whether the run is over.
    fn serve<N: SoakNode>(&mut self, at: Situation, node: &mut N) -> Result<bool> {
        let now = node.ticks();
        self.listen(at.place, node)?;
        if !self.has_ticked(at.place, now) {
            return Ok(false);
        }
        self.act(at.place, node, now, at.may_broadcast())?;
        if at.place > 0 {
            return Ok(false);
        }
        self.tell(now)?;
        Ok(self.is_over(now))
    }
}

impl<'a, R: Net + Files + Print + AllocGlobal, N: SoakNode> Program<N> for Soak<'a, R> {
    fn turn(&mut self, at: Situation, node: &mut N) -> Next {
        match self.serve(at, node) {
            Ok(true) => Next::End,
            Ok(false) if self.trouble.is_held(at.place, node.ticks()) => Next::Hold,
            Ok(false) => Next::Wait,
            Err(error) => {
                self.result = Err(error);
                Next::End
            }
        }
    }
}
