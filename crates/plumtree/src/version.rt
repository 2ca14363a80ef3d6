//! The version of this repository.

/// The version, and the toolchain that proved it, as `rt version` prints it.
///
/// docs/check compares CHANGELOG.md and README.md with it.
pub const VERSION: &str = "0.1.0 (rattle-kit-13f logic dac8208d650f15bf)";
