//! Tests of running nodes: what their ports are answered, what closing finds, and what the workers move.
#![tactic(auto)]

#[cfg(test)]
mod tests;
