//! The limits of a node of bytes.
ghost use Rattle.std.specs.Prelude.{◌≡◌};

use node_names::Limits;

/// How many bytes wait for a name at most, unless another limit is set: 8 MiB.
pub const MAX_WAITING: usize = 8_388_608;

/// The limits of a node of bytes.
#[derive(Clone, Copy)]
pub struct WireLimits {
    /// Those of its core.
    pub core: Limits,
    /// How many bytes wait for a name before it is taken down.
    pub waiting: usize,
}

impl WireLimits {
    /// These limits of the core, with the usual limit of what waits for a name.
    pub fn new(core: Limits) -> WireLimits
        ensures core { result.core ≡ core }
        ensures waiting { result.waiting ≡ MAX_WAITING }
    {
        WireLimits {
            core,
            waiting: MAX_WAITING,
        }
    }
}
