//! Links: streams of bytes that carry frames.
#![tactic(auto)]

mod draining;
mod ends;
mod loopback;
mod metered;
mod metered_reader;
mod metered_writer;
mod pumping;
mod sink;
mod tape_reader;
mod tape_writer;
mod tcp_closer;
mod tcp_reader;
mod tcp_writer;

pub use draining::drain;
pub use ends::LinkEnd;
pub use loopback::{accept, dial, listen};
pub use metered::{MeteredRead, MeteredWrite};
pub use metered_reader::MeteredReader;
pub use metered_writer::MeteredWriter;
pub use pumping::pump;
pub use sink::{Sink, Source};
pub use tape_reader::TapeReader;
pub use tape_writer::TapeWriter;
pub use tcp_closer::TcpCloser;
pub use tcp_reader::TcpReader;
pub use tcp_writer::TcpWriter;
