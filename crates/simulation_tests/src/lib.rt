//! Tests of a scenario that is played while an allocation, a read or a write fails, each in turn.
#![tactic(auto)]

#[cfg(test)]
mod tests;
