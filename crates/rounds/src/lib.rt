//! What stands above a stream: the silence weights of a decoder's path, the nearest voice, and the
//! round of an utterance, which makes these and the stream's calls in turn.
#![tactic(auto)]

pub mod nearest_voice;
pub mod silence_weighting;
pub mod trigger;
pub mod trigger_steps;
