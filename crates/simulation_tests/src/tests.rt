//! The tests, grouped by what they test, and what they share.
mod codes;
mod hello;
mod memory;
mod reads;
mod writes;
