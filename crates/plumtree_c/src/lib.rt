//! A node for programs in C and in languages that call C, as a state machine or as a node of bytes:
//! bindings/c/plumtree.h says what each call does.
#![tactic(auto)]

mod calls;
mod held;
mod lifetime;
mod lodger;
mod node;
mod outputs;
mod parts;
mod piece;
mod plain;
mod readers;
mod refusal;
mod room;
mod slot;
mod stirred;
mod wire;
mod wire_calls;
mod wire_connections;
mod wire_news;
mod wire_outputs;
