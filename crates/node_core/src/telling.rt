//! What a node has to tell of its active view.
ghost use Rattle.std.specs.Prelude.{◌≡◌, ◌&&◌, [], None, Some, IfOk, OnErr, OnOk, false, if◌then◌else◌};
ghost use Rattle.node_core.specs.News.{all_news, farewell_of};

use crate::news::{Farewell, News, changes_of, farewell_of};
use frames::Frame;
use node_names::{Listed, NameSet, NodeName};
use protocol::Stimulus;
use std::alloc::{AllocError, Allocator};
use std::marker::Model;
use std::mem;

/// A step that changed the active view, whose news are not worked out yet.
#[derive(Drop)]
pub struct Change<A: Allocator> {
    /// The active view before it.
    before: Listed<NodeName, A>,
    farewell: Option<Farewell>,
}

impl<A: Allocator> Model for Change<A> {
    ghost use Rattle.node_core.specs.News.{Change};

    ghost Value = { Change };

    ghost view = { λ c. record { before = c.before; farewell = c.farewell } };
}

/// The news that were not taken yet.
///
/// Those of the last step are worked out before the next, or when they are taken: behind a step nothing may be refused,
/// and before it nobody knows the view that will be. Steps are told of only on request, since memory would grow with a
/// caller that never takes the news.
#[derive(Drop)]
pub struct Telling<A: Allocator> {
    /// Whether the next steps are told of.
    tells: bool,
    news: Listed<News, A>,
    last: Option<Change<A>>,
}

impl<A: Allocator> Model for Telling<A> {
    ghost use Rattle.node_core.specs.News.{Telling};

    ghost Value = { Telling };

    ghost view = { λ t. record { tells = t.tells; news = t.news; last = t.last } };
}

impl<A: Allocator + Copy> Telling<A> {
    /// Tells nothing.
    pub fn new(alloc: A) -> Telling<A>
        ensures { result ≡ record { tells = false; news = []; last = None } }
    {
        Telling {
            tells: false,
            news: Listed::new(alloc),
            last: None,
        }
    }

    /// Has the next steps be told of, or not.
    pub fn set_tells(&mut self, tells: bool)
        ensures { self.new ≡ record self.old { tells = tells } }
    {
        self.tells = tells;
    }

    /// Works out the news of the last step, where they are not: the active view is as it left it.
    pub fn settle(&mut self, active: &NameSet<A>) -> Result<(), AllocError>
        ensures ok { OnOk result
            (self.new ≡ record { tells = self.old.tells; news = all_news self.old active.now.keys; last = None }) }
        ensures err { OnErr result (self.new ≡ self.old) }
    {
        let Some(change) = &self.last else {
            return Ok(());
        };
        let alloc = *self.news.allocator();
        let news = changes_of(alloc, &change.farewell, change.before.as_slice(), active)?;
        self.news.append(news)?;
        self.last = None;
        Ok(())
    }

    /// What is to be kept of a step that is about to be made: nothing, unless it is to be told of and the active view
    /// will be another.
    pub fn change_of(
        &self,
        is_moved: bool,
        stimulus: &Stimulus<Frame<A>, A>,
        active: &NameSet<A>,
    ) -> Result<Option<Change<A>>, AllocError>
        ensures { IfOk result (λ change. change ≡ (if self.now.tells && is_moved
            then Some (record { before = active.now.keys; farewell = farewell_of stimulus.now })
            else None)) }
    {
        if !self.tells || !is_moved {
            return Ok(None);
        }
        let before = Vec::from_slice(*self.news.allocator(), active.as_slice())?;
        Ok(Some(Change {
            before: Listed::from_vec(before),
            farewell: farewell_of(stimulus),
        }))
    }

    /// Keeps what is to be told of the step that was made.
    pub fn keep(&mut self, change: Option<Change<A>>)
        ensures { self.new ≡ record self.old { last = change } }
    {
        self.last = change;
    }

    /// Takes the news, which are all worked out.
    pub fn take(&mut self) -> Vec<News, A>
        requires { self.old.last ≡ None }
        ensures given { result.items ≡ self.old.news }
        ensures rest { self.new ≡ record self.old { news = [] } }
    {
        let alloc = *self.news.allocator();
        mem::replace(&mut self.news, Listed::new(alloc)).into_vec()
    }
}
