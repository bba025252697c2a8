//! The C interface: each call of the product under a plain name. include/shofrakin.h is its C side.
//!
//! A slice is a pointer and a length in C, so each one is an argument. A record stays with the
//! host: a call takes it behind a reference and changes it there, but for a round, which takes and
//! gives it by value. A call is lent its rooms as slices to write, also those that it only reads:
//! its contract says what each holds at exit. An answer is a record with the refusal's number, 0
//! where the call was taken; a refused call changes nothing, but a round keeps the steps before the
//! refused one. Letters for lengths: g and e Gaussians of the GMM and of the extractor, d features,
//! s the i-vector dimension, b the base dimension.
#![tactic(auto)]

pub mod model_calls;
pub mod register_calls;
pub mod round_calls;
pub mod silence_calls;
pub mod stream_calls;
