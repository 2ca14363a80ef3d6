//! Values that are lent to a call.

/// Lends a value to a call, and then drops it.
///
/// In a function that names a node's type, owning a node and lending it takes the prover a minute. Here it takes next
/// to nothing.
pub fn lend<T: Drop, R, F: FnOnce(&mut T) -> R>(mut value: T, call: F) -> R
    requires { F.IsAlwaysCallable call }
{
    call(&mut value)
}
