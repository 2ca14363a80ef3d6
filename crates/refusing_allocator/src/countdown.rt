ghost use Rattle.std.specs.Prelude.{◌≡◌, ◌≢◌, ◌-◌, None, Some};

use std::sync::atomic::{AtomicU64, Ordering};

// The count once the refusal has been given.
const SPENT: u64 = 0;

// The count at the allocation that is refused.
const LAST: u64 = 1;

// The count while no allocation is to be refused.
const NEVER: u64 = u64::MAX;

/// Counts allocations down to the one that is to be refused.
///
/// The count is one word, and an allocation is one step on it. So where threads allocate at the same time,
/// exactly one of them is refused. Refusals are tested, since no contract can say what an atomic count holds.
#[derive(Drop)]
pub(crate) struct Countdown {
    left: AtomicU64,
}

impl Countdown {
    /// A countdown that refuses nothing.
    pub(crate) fn new() -> Countdown {
        Countdown {
            left: AtomicU64::new(NEVER),
        }
    }

    /// Starts over: the `n`-th allocation from now on is to be refused, and none at 0.
    pub(crate) fn restart(&self, n: u64) {
        self.left.store(initial_count(n), Ordering::SeqCst);
    }

    /// Counts one allocation, and returns whether it is the one to refuse.
    pub(crate) fn count_growth(&self) -> bool {
        let count = self
            .left
            .fetch_update(Ordering::SeqCst, Ordering::SeqCst, next_count);
        count == Ok(LAST)
    }

    /// Whether the allocation that was to be refused has come.
    pub(crate) fn is_spent(&self) -> bool {
        self.left.load(Ordering::SeqCst) == SPENT
    }
}

fn initial_count(n: u64) -> u64
    ensures none { n ≡ 0 → result ≡ NEVER }
    ensures some { n ≢ 0 → result ≡ n }
{
    if n == 0 { NEVER } else { n }
}

/// The count after one more allocation, or `None` where it stands still.
fn next_count(left: u64) -> Option<u64>
    ensures spent { left ≡ SPENT → result ≡ None }
    ensures never { left ≡ NEVER → result ≡ None }
    ensures counts { left ≢ SPENT → left ≢ NEVER → result ≡ Some (left - 1) }
{
    match left {
        SPENT | NEVER => None,
        _ => Some(left - 1),
    }
}
