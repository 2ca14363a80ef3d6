//! What watches a run and says how it goes on.

/// Watches how far a run is, at most 200 times a second, and says how it goes on.
pub trait Watch {
    /// `ticks` of `of` ticks have passed, and all nodes together have delivered `deliveries` messages.
    fn look(&mut self, ticks: u64, of: u32, deliveries: usize);

    /// The most messages that each node may broadcast in the next turn, if these are fewer than it broadcasts in a turn
    /// anyway. `None`: the run is to end at once. This is called before each turn in which nodes broadcast.
    fn allow(&mut self) -> Option<usize> {
        Some(usize::MAX)
    }
}

/// A watch that ignores how far a run is and never limits it.
#[derive(Clone, Copy, Debug, Drop)]
pub struct Unwatched;

impl Watch for Unwatched {
    fn look(&mut self, _ticks: u64, _of: u32, _deliveries: usize) {}
}
