//! Calls that have one of their allocations refused.
use refusing_allocator::RefusingAllocator;

/// More allocations than any call makes.
const MANY: u64 = 1_000;

/// Stops refusing allocations. Returns whether the refusal that was last requested has taken place.
pub fn stop_refusing(heap: &RefusingAllocator) -> bool {
    let is_spent = heap.is_spent();
    heap.refuse(0);
    is_spent
}

/// Returns the call's error, if it failed.
///
/// A function that names the type `T` takes the prover a minute if `T` is a node. Here, where `T` is generic, it takes
/// next to nothing.
pub fn refusal_of<T: Drop, E: Drop>(answer: Result<T, E>) -> Option<E> {
    answer.err()
}

/// Makes a call while allocation number `n` is refused, and makes it again if it failed. Returns whether the call has
/// such an allocation, or `None` if the call fails in any other way.
///
/// The call returns its error, if it failed. `is_expected` returns whether a refused allocation leads to that error.
pub fn retry<E: Drop, F: FnMut() -> Option<E>, W: FnOnce(E) -> bool>(
    heap: &RefusingAllocator,
    n: u64,
    mut call: F,
    is_expected: W,
) -> Option<bool>
    requires call { F.IsAlwaysCallable call }
    requires is_expected { W.IsAlwaysCallable is_expected }
{
    heap.refuse(n);
    let refusal = call();
    let is_spent = stop_refusing(heap);
    let is_right = match refusal {
        None => !is_spent,
        Some(error) => is_spent && is_expected(error) && call().is_none(),
    };
    is_right.then_some(is_spent)
}

/// Makes a call once for each of its allocations, with that allocation refused, and a last time with none refused.
/// Returns the number of allocations, or `None` if an answer is wrong.
///
/// The call is given the number of the allocation that it must have refused. It returns whether there is such an
/// allocation, or `None` if something is wrong.
pub fn sweep<E: Drop, F: FnMut(u64) -> Result<Option<bool>, E>>(
    mut call: F,
) -> Result<Option<u64>, E>
    requires pre { (f : _) (x : _) → F.pre f x }
{
    for n in 1..MANY {
        match call(n)? {
            Some(true) => {}
            Some(false) => return Ok(Some(n - 1)),
            None => return Ok(None),
        }
    }
    Ok(None)
}
