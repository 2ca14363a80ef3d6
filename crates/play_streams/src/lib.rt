//! The layers of frames and of the streams that carry them.
#![tactic(auto)]

mod cuts;
mod drains;
mod frame_changes;
mod frame_layer;
mod frame_texts;
mod pumps;
mod replays;
mod sources;
mod stream_layer;
mod writers;

pub use frame_layer::FrameLayer;
pub use stream_layer::StreamLayer;
