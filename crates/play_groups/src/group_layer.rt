//! A group of nodes: events are played in it, and each is a command.
//!
//! A core can be taken out of the group, or started alone. Its steps are then commands too, and it is shown in place of
//! the group.
use crate::alone::{Alone, Part, make_alone, push_alone, push_answer, stimulus_of, take_part};
use crate::cores::{Played, Start};
use crate::events::{event_of, events_of, peers_and_contact};
use crate::readers::read;
use crate::rest::{ask, settle_group};
use crate::texts::{push_deliveries, push_delivery, push_group, push_log, push_out, push_packets};
use flood::FloodCore;
use node_core::PlumCore;
use node_names::{Limits, MsgId};
use play_script::layer::{Layer, Outcome, Turn, fill};
use play_script::limits::{limits_of, push_limits};
use play_script::words::{after, id, name, names, number_of, origin};
use protocol::{Core, Out};
use std::alloc::{AllocError, Allocator, Global};
use std::fmt::Write;
use world::{Given, RunFault, World, WorldError};

/// Groups of flooding nodes.
pub type FloodLayer<A> = GroupLayer<FloodCore<A>, A>;

/// Groups of Plumtree nodes.
pub type PlumLayer<A> = GroupLayer<PlumCore<A>, A>;

/// A group, and a core alone.
#[derive(Drop)]
pub struct GroupLayer<C: Core<A>, A: Allocator> {
    alloc: A,
    group: World<C, A>,
    /// How many events of a run were played before it was refused memory.
    played: usize,
    alone: Option<Alone<C, A>>,
    /// The messages of which the core alone is asked whether it knows them.
    ids: Vec<MsgId>,
}

/// Appends why a group refused an event.
fn push_refusal(said: &mut String, why: WorldError) -> Result<Outcome, AllocError> {
    if why == WorldError::OutOfMemory {
        return Ok(Outcome::NoMemory);
    }
    writeln!(said, "{why}")?;
    Ok(Outcome::Done)
}

/// Appends the packets that the last event of a group sent, and whether it moved an active view.
fn push_last<C: Played<A>, A: Allocator + Copy>(
    said: &mut String,
    group: &World<C, A>,
) -> Result<(), AllocError> {
    let Some(entry) = group.log().last() else {
        return Ok(());
    };
    push_packets(said, group, entry.first_sent)?;
    if entry.moved {
        said.push_str("moves an active view\n")?;
    }
    Ok(())
}

/// Appends the deliveries of a run, each with the place of its event.
fn push_given<A: Allocator>(said: &mut String, given: &[Given<A>]) -> Result<(), AllocError> {
    for given in given {
        write!(said, "at {} ", given.at)?;
        push_delivery(said, &given.delivery)?;
    }
    Ok(())
}

impl<C: Played<A>, A: Allocator + Copy> GroupLayer<C, A> {
    pub fn new(alloc: A, own: Global) -> GroupLayer<C, A> {
        GroupLayer {
            alloc,
            group: World::new(alloc, Limits::STANDARD),
            played: 0,
            alone: None,
            ids: Vec::new(own),
        }
    }

    /// Begins anew with a group without nodes.
    fn begin(&mut self, limits: Limits) {
        self.group = World::new(self.alloc, limits);
        self.played = 0;
        self.alone = None;
        self.ids.clear();
    }

    /// Begins anew under other limits: `limits threshold 0 keep 1`. Without words it appends the limits.
    fn limit(&mut self, words: &[&str], said: &mut String) -> Result<Outcome, AllocError> {
        if words.is_empty() {
            push_limits(said, &self.group.limits())?;
            return Ok(Outcome::Done);
        }
        match limits_of(words) {
            Some(limits) => self.begin(limits),
            None => said.push_str("no such limits\n")?,
        }
        Ok(Outcome::Done)
    }

    /// Plays an event, and appends what it delivered and sent.
    fn apply(
        &mut self,
        words: &[&str],
        turn: &mut Turn<'_>,
        said: &mut String,
    ) -> Result<Outcome, AllocError> {
        let Some(event) = event_of(self.alloc, words)? else {
            return Ok(Outcome::Unknown);
        };
        turn.begin();
        let answer = self.group.apply(event);
        turn.end();
        match answer {
            Ok(given) => push_deliveries(said, given.as_slice())?,
            Err(why) => return push_refusal(said, why),
        }
        push_last(said, &self.group)?;
        Ok(Outcome::Done)
    }

    /// Plays an event, and appends its entry in the log and what it sent: `play broadcast a x`.
    fn play(
        &mut self,
        words: &[&str],
        turn: &mut Turn<'_>,
        said: &mut String,
    ) -> Result<Outcome, AllocError> {
        let Some(event) = event_of(self.alloc, words)? else {
            return Ok(Outcome::Unknown);
        };
        let before = self.group.log().len();
        turn.begin();
        let answer = self.group.play(&event);
        turn.end();
        if let Err(why) = answer {
            return push_refusal(said, why);
        }
        push_log(said, &self.group, before)?;
        Ok(Outcome::Done)
    }

    /// Plays events as one run: `run flush a then stop b`. A run that was refused memory goes on, the next time, where
    /// it stopped.
    fn run(
        &mut self,
        words: &[&str],
        turn: &mut Turn<'_>,
        said: &mut String,
    ) -> Result<Outcome, AllocError> {
        let Some(events) = events_of(self.alloc, words)? else {
            return Ok(Outcome::Unknown);
        };
        let Some(rest) = events.as_slice().get(self.played..) else {
            return Ok(Outcome::Unknown);
        };
        turn.begin();
        let answer = self.group.run(rest);
        turn.end();
        match answer {
            Ok(given) => {
                self.played = 0;
                push_given(said, given.as_slice())?;
                Ok(Outcome::Done)
            }
            Err(fault) => self.stop(&fault, said),
        }
    }

    /// Notes where a run stopped, and appends what it delivered until then and why it stopped.
    fn stop(&mut self, fault: &RunFault<A>, said: &mut String) -> Result<Outcome, AllocError> {
        push_given(said, fault.given.as_slice())?;
        if fault.why == WorldError::OutOfMemory {
            self.played = self.played.saturating_add(fault.at);
            return Ok(Outcome::NoMemory);
        }
        self.played = 0;
        write!(said, "at {} ", fault.at)?;
        push_refusal(said, fault.why)
    }
}

impl<C: Played<A>, A: Allocator + Copy> GroupLayer<C, A> {
    /// Takes a copy of a node's core out of the group: `take b`.
    fn take(&mut self, words: &[&str], turn: &mut Turn<'_>) -> Outcome {
        let [node] = words else {
            return Outcome::Unknown;
        };
        let Some(node) = name(node) else {
            return Outcome::Unknown;
        };
        let Some(core) = self.group.core(&node) else {
            return Outcome::Unknown;
        };
        turn.begin();
        let copy = core.copy();
        turn.end();
        fill(&mut self.alone, make_alone(self.alloc, copy))
    }

    /// Starts a core alone, whose run has used up some numbers: `alone a/1 spent 0 framed 0 with peers b contact c`.
    fn start(
        &mut self,
        words: &[&str],
        turn: &mut Turn<'_>,
        said: &mut String,
    ) -> Result<Outcome, AllocError> {
        let Some((me, words)) = words.split_first() else {
            return Ok(Outcome::Unknown);
        };
        let counts = words.split(|word| *word == "with").next().unwrap_or(&[]);
        let (Some(me), Some(spent), Some(framed), Some((peers, contact))) = (
            origin(me),
            number_of(counts, "spent"),
            number_of(counts, "framed"),
            peers_and_contact(after(words, "with")),
        ) else {
            return Ok(Outcome::Unknown);
        };
        let Some(peers) = names(self.alloc, peers)? else {
            return Ok(Outcome::Unknown);
        };
        let start = Start {
            me,
            limits: self.group.limits(),
            peers: peers.as_slice(),
            contact,
            spent,
            framed,
        };
        self.start_so(&start, turn, said)
    }

    /// Starts a core alone, and appends the packets of its start.
    fn start_so(
        &mut self,
        start: &Start<'_>,
        turn: &mut Turn<'_>,
        said: &mut String,
    ) -> Result<Outcome, AllocError> {
        let mut out = Out::new(self.alloc);
        turn.begin();
        let made = C::start_spent(self.alloc, start, &mut out);
        turn.end();
        push_out::<C, A>(said, &out, 0, 0)?;
        match made {
            Some(Ok(core)) => {
                self.alone = Some(Alone { core, out });
                Ok(Outcome::Done)
            }
            Some(Err(why)) => push_answer(said, Err(why)),
            None => Ok(Outcome::Unknown),
        }
    }

    /// Has the core alone take a step or a part of it.
    fn step(
        &mut self,
        part: Part,
        words: &[&str],
        turn: &mut Turn<'_>,
        said: &mut String,
    ) -> Result<Outcome, AllocError> {
        let Some(stimulus) = stimulus_of(self.alloc, &self.group, words)? else {
            return Ok(Outcome::Unknown);
        };
        match &mut self.alone {
            Some(alone) => take_part(alone, &stimulus, part, turn, said),
            None => Ok(Outcome::Unknown),
        }
    }

    /// Notes messages of which the core alone is asked: `about a/1/1`.
    fn note(&mut self, words: &[&str]) -> Result<Outcome, AllocError> {
        for word in words {
            let Some(id) = id(word) else {
                return Ok(Outcome::Unknown);
            };
            self.ids.push(id)?;
        }
        Ok(Outcome::Done)
    }

    /// Brings the group to rest: `settle`.
    fn settle(
        &mut self,
        words: &[&str],
        turn: &mut Turn<'_>,
        said: &mut String,
    ) -> Result<Outcome, AllocError> {
        if !words.is_empty() {
            return Ok(Outcome::Unknown);
        }
        settle_group(self.alloc, &mut self.group, turn, said)
    }

    /// Makes a call that changes the group or the core alone, and is no event.
    fn change(
        &mut self,
        words: &[&str],
        turn: &mut Turn<'_>,
        said: &mut String,
    ) -> Result<Outcome, AllocError> {
        let Some((first, words)) = words.split_first() else {
            return Ok(Outcome::Unknown);
        };
        match *first {
            "limits" => self.limit(words, said),
            "play" => self.play(words, turn, said),
            "run" => self.run(words, turn, said),
            "settle" => self.settle(words, turn, said),
            "take" => Ok(self.take(words, turn)),
            "alone" => self.start(words, turn, said),
            "about" => self.note(words),
            "prepare" => self.step(Part::Preparing, words, turn, said),
            "advance" => self.step(Part::Advancing, words, turn, said),
            "step" => self.step(Part::Whole, words, turn, said),
            _ => Ok(Outcome::Unknown),
        }
    }
}

impl<C: Played<A>, A: Allocator + Copy> Layer for GroupLayer<C, A> {
    fn call(
        &mut self,
        words: &[&str],
        turn: &mut Turn<'_>,
        said: &mut String,
    ) -> Result<Outcome, AllocError> {
        let changed = self.change(words, turn, said)?;
        if changed != Outcome::Unknown {
            return Ok(changed);
        }
        let read = read(&self.group, self.ids.as_slice(), words, said)?;
        if read != Outcome::Unknown {
            return Ok(read);
        }
        let told = ask(self.alloc, &self.group, words, turn, said)?;
        if told != Outcome::Unknown {
            return Ok(told);
        }
        self.apply(words, turn, said)
    }

    fn show(&self, text: &mut String) -> Result<(), AllocError> {
        match &self.alone {
            Some(alone) => push_alone(text, alone, self.ids.as_slice()),
            None => push_group(text, &self.group),
        }
    }

    fn show_all(&self, text: &mut String) -> Result<(), AllocError> {
        push_group(text, &self.group)?;
        push_packets(text, &self.group, 0)?;
        push_log(text, &self.group, 0)?;
        if let Some(alone) = &self.alone {
            push_alone(text, alone, self.ids.as_slice())?;
            push_out::<C, A>(text, &alone.out, 0, 0)?;
        }
        Ok(())
    }

    fn clear(&mut self) {
        self.begin(Limits::STANDARD);
    }
}
