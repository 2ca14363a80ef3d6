//! What uses the nodes that an event loop runs.

/// What a program wants after it was called for a node.
#[derive(Clone, Copy, Debug, PartialEq, Eq)]
pub enum Next {
    /// To be called for the node again once that took something, and at the next tick at the latest.
    Wait,
    /// To be called for the node again at the next turn, which waits for nothing.
    Again,
    /// What `Wait` says, and that until then the loop reads nothing more that comes to the node: the program cannot
    /// take it.
    Hold,
    /// That the run ends, once what waits was tried to be sent.
    End,
}

/// The node for which a program is called, and how it stands.
#[derive(Clone, Copy, Debug, PartialEq, Eq)]
pub struct Situation {
    /// What `EventLoop::add` answered for the node.
    pub place: usize,
    /// How many bytes waited in the node for the name for whom most did, when it was tried last to send them. Who
    /// broadcasts while this is much soon has more wait than may: the name goes down then.
    pub waiting: usize,
}

/// From so many bytes on that wait for a name, a program should broadcast nothing more: 32 KiB. Behind them lies what
/// the system keeps of a connection, so more would make no link faster, and each message wait longer.
const BACKLOG: usize = 32_768;

impl Situation {
    /// Whether the program should broadcast: less than 32 KiB wait for each name. Until that is so again, the program
    /// is called once the node took something, or a link took what waits.
    pub fn may_broadcast(&self) -> bool {
        self.waiting < BACKLOG
    }
}

/// What uses the nodes that an event loop runs.
pub trait Program<N> {
    /// Is called on the loop's thread for each node that took something or had a tick since it was called last, and
    /// may broadcast and take what the node delivered. While it works nothing is read or sent.
    fn turn(&mut self, at: Situation, node: &mut N) -> Next;
}

/// A program that does nothing.
#[derive(Clone, Copy)]
pub(crate) struct Silence;

impl<N> Program<N> for Silence {
    fn turn(&mut self, _at: Situation, _node: &mut N) -> Next {
        Next::Wait
    }
}
