//! A stream of frames: what it keeps, what its calls refuse, and the calls on it, which are methods
//! of [`Stream`].
#![tactic(auto)]

pub mod delta_weights;
pub mod frame_views;
pub mod ivector_batch;
pub mod ivector_fetch;
pub mod ivector_stream;
pub mod ivector_update;
pub mod stream_refusals;
pub mod stream_rooms;

pub use stream_rooms::{Fetched, Stream};
