//! What a group's nodes say, and what becomes of what they deliver.
use crate::fault::short;
use crate::group_node::GroupNode;
use crate::seat::Seat;
use event_loop::{Next, Program, Situation};
use loopback::{RunError, Shortage, Watch};
use std::time::Clock;

/// Has the nodes of a group broadcast their texts, and keeps what they deliver, until the ticks are over and all is
/// broadcast, or the watch ends the run.
#[derive(Drop)]
pub(crate) struct GroupProgram<'a, R, V: Drop> {
    pub(crate) rt: R,
    pub(crate) seats: Vec<Seat>,
    pub(crate) watch: &'a mut V,
    /// How many ticks pass before the nodes begin to broadcast.
    pub(crate) quiet: u64,
    /// How many ticks the nodes run.
    pub(crate) ticks: u32,
    /// The tick at which the watch looked last.
    pub(crate) looked: u64,
    /// How many rounds began. In one each node is called once at most.
    pub(crate) round: u64,
    /// How many messages a node may broadcast in this round. `None`: the run is to end.
    pub(crate) most: Option<usize>,
    /// How many messages were delivered.
    pub(crate) delivered: usize,
    /// The shortage that ended the run, if one did.
    pub(crate) fault: Option<RunError>,
}

/// Whether the node of each seat has nothing more to broadcast.
fn are_over(seats: &[Seat]) -> bool {
    seats.iter().all(|seat| seat.speech.is_over())
}

impl<R: Clock + Drop, V: Watch + Drop> GroupProgram<'_, R, V> {
    /// How many messages the node of this place may broadcast at this tick. The watch is asked once a round: a node
    /// that is called again begins the next one.
    fn allowed(&mut self, place: usize, now: u64) -> Option<usize> {
        let seat = self.seats.get_mut(place)?;
        if now < self.quiet {
            return Some(0);
        }
        if seat.round == self.round {
            self.round = self.round.wrapping_add(1);
            self.most = self.watch.allow();
        }
        seat.round = self.round;
        self.most
    }

    /// Lets the watch look, once a tick.
    fn show(&mut self, now: u64) {
        if now != self.looked {
            self.looked = now;
            self.watch.look(now, self.ticks, self.delivered);
        }
    }

    /// Has the node of this place broadcast at most `most` of its texts, and takes what it delivered. Returns whether
    /// it has more to broadcast.
    fn hear<N: GroupNode>(
        &mut self,
        place: usize,
        node: &mut N,
        most: usize,
    ) -> Result<bool, Shortage> {
        let Some(seat) = self.seats.get_mut(place) else {
            return Ok(false);
        };
        seat.speak(&self.rt, node, most)?;
        let count = seat.listen(&self.rt, node)?;
        self.delivered = self.delivered.saturating_add(count);
        Ok(!seat.speech.is_over())
    }

    /// Ends the run with the shortage of a node.
    fn fail(&mut self, place: usize, of: Shortage) -> Next {
        self.fault = match self.seats.get(place) {
            Some(seat) => Some(short(seat.me.name, of)),
            None => Some(RunError::OutOfMemory),
        };
        Next::End
    }

    /// Makes a turn of the node of this place at this tick.
    fn step<N: GroupNode>(&mut self, place: usize, node: &mut N, now: u64, most: usize) -> Next {
        match self.hear(place, node, most) {
            Err(of) => self.fail(place, of),
            Ok(true) if most > 0 => Next::Again,
            Ok(true) => Next::Wait,
            Ok(false) if now >= u64::from(self.ticks) && are_over(self.seats.as_slice()) => {
                Next::End
            }
            Ok(false) => Next::Wait,
        }
    }
}

impl<R: Clock + Drop, V: Watch + Drop, N: GroupNode> Program<N> for GroupProgram<'_, R, V> {
    fn turn(&mut self, at: Situation, node: &mut N) -> Next {
        let now = node.ticks();
        self.show(now);
        match self.allowed(at.place, now) {
            // Where links do not take what waits, more of it would soon be more than may wait.
            Some(_) if !at.may_broadcast() => self.step(at.place, node, now, 0),
            Some(most) => self.step(at.place, node, now, most),
            None => Next::End,
        }
    }
}
