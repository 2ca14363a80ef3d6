//! Tests of event loops and their ports: what nodes deliver, what strangers and peers that do not answer do, and what
//! comes of refused allocations.
#![tactic(auto)]

#[cfg(test)]
mod tests;
