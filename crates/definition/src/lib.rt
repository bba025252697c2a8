//! The types that the calls exchange, and what they refuse. The definitions stand in specs/.
#![tactic(auto)]

mod lent;
mod refusal;

pub use lent::{LentFrames, LentTables, LentWaiting};
pub use refusal::{Refusal, need, number_or_0, numbered};

/// The options. Their limits: specs/Options.antt.
#[repr(C)]
#[derive(Clone, Copy, Debug, Default, PartialEq)]
pub struct IvectorOptions {
    /// Frames before a frame that its spliced row has.
    pub left_context: usize,
    /// Frames after it.
    pub right_context: usize,
    /// Frames of the CMVN window.
    pub cmn_window: usize,
    /// At most so many frames' worth of the global sums fill up a short window.
    pub global_frames: usize,
    /// At most so many posteriors of a frame.
    pub num_gselect: usize,
    /// At most so many turns of the conjugate gradient.
    pub num_cg_iters: usize,
    /// Posteriors below this share of their total are pruned.
    pub min_post: f32,
    /// What posteriors are multiplied by.
    pub posterior_scale: f32,
    /// The frame count past which the prior is scaled up; not where it is 0 or less.
    pub max_count: f64,
    /// A frame whose c0 is above it is loud: it renews the CMVN state.
    pub min_energy: f32,
}

/// A model's sizes.
#[repr(C)]
#[derive(Clone, Copy, Debug, Default, PartialEq, Eq)]
pub struct Dimensions {
    /// Gaussians of the GMM.
    pub num_gauss: usize,
    /// Gaussians of the extractor, no fewer.
    pub ext_gauss: usize,
    /// Features: numbers of a row after the LDA.
    pub feat_dim: usize,
    /// Numbers of the i-vector.
    pub ivector_dim: usize,
    /// Numbers of a frame.
    pub base_dim: usize,
    /// Columns of the LDA: the numbers of a spliced row, and one more where it has an offset.
    pub lda_cols: usize,
}

/// The lengths of the lent tables that a model is loaded into, by the fields of [`LentTables`].
#[repr(C)]
#[derive(Clone, Copy, Debug, Default, PartialEq, Eq)]
pub struct TableLengths {
    pub gconsts: usize,
    pub means_invvars_t: usize,
    pub inv_vars_t: usize,
    pub sigma_inv_m: usize,
    pub u: usize,
    pub lda_t: usize,
    pub lda_offset: usize,
    pub global_mean_stats: usize,
}

/// A loaded model's record. Its tables are lent to each call that reads them.
#[repr(C)]
#[derive(Clone, Copy, Debug, Default, PartialEq)]
pub struct IvectorInfo {
    pub opts: IvectorOptions,
    pub dims: Dimensions,
    /// The prior: element 0 of its vector, whose others are 0.
    pub prior_offset: f64,
    /// The lengths of the tables that were filled.
    pub tables: TableLengths,
}

/// How a frame enters the statistics.
#[derive(Clone, Copy, Debug, PartialEq)]
pub enum FrameWeight {
    /// Not at all.
    Skipped,
    /// With a prune floor, and a scale of its posteriors.
    Weighed(f32, f32),
}

/// The lengths of the rings that every call on a stream is lent, in numbers.
#[repr(C)]
#[derive(Clone, Copy, Debug, Default, PartialEq, Eq)]
pub struct RingLengths {
    pub frames: usize,
    /// Of the prefix rows.
    pub rows: usize,
    pub waiting_frames: usize,
    pub waiting_weights: usize,
}

/// The lengths of the rooms that a fetch is lent besides.
#[repr(C)]
#[derive(Clone, Copy, Debug, Default, PartialEq, Eq)]
pub struct EstimateLengths {
    pub cmvn_stats: usize,
    pub linear: usize,
    pub quadratic: usize,
    pub current: usize,
    /// It holds nothing between calls.
    pub scratch: usize,
}

/// The lengths of the lent rooms that a stream works in.
#[repr(C)]
#[derive(Clone, Copy, Debug, Default, PartialEq, Eq)]
pub struct RoomLengths {
    pub rings: RingLengths,
    pub estimate: EstimateLengths,
}

/// A stream's record. Its rooms are lent to each call.
#[repr(C)]
#[derive(Clone, Copy, Debug, Default, PartialEq)]
pub struct IvectorStream {
    /// The model that it was made for.
    pub info: IvectorInfo,
    /// The lengths of the rooms that it was made in.
    pub lengths: RoomLengths,
    /// The frames pushed, held or not: the number of the next one.
    pub accepted: usize,
    /// The first frame that no fetch has brought into the statistics.
    pub num_frames_stats: usize,
    /// No frame below it will be read again.
    pub mark: usize,
    /// How many changes wait.
    pub waiting: usize,
    /// One more than the highest frame ever changed, 0 before.
    pub past_highest: usize,
    /// Whether a change call, even empty, was taken: a fetch then brings in changed frames alone.
    pub delta_weights_provided: bool,
    /// Whether no more frames come: then the last ones are ready without right context.
    pub input_finished: bool,
    /// The statistics' frame count, a sum of weights.
    pub num_frames: f64,
    /// The highest frame named in a forget, 0 before: no change may name one below it.
    pub floor: usize,
    /// The CMVN window in force, in frames: that of the options at first.
    pub window: usize,
    /// The longest window since the mark last rose: prefix rows are held for it.
    pub longest: usize,
}

/// The answer of a call on a stream, for C. A fetch's vector is in the output that it is lent.
#[repr(C)]
#[derive(Clone, Copy, Debug, Default, PartialEq)]
pub struct StreamAnswer {
    /// The number of the refusal, 0 where the call is taken. With 10 the other numbers are 0.
    pub refusal: usize,
    /// Frames from the mark on.
    pub frames_held: usize,
    /// Prefix rows.
    pub rows_held: usize,
    /// Numbers of the vector that are not finite.
    pub not_finite: usize,
    /// NaNs among the likelihoods of the frames that a fetch brought in.
    pub nan_likelihoods: usize,
}

/// What a call on a stream returns: its answer, and the record for the next call.
#[repr(C)]
#[derive(Clone, Copy, Debug, Default, PartialEq)]
pub struct StreamCall {
    pub answer: StreamAnswer,
    pub stream: IvectorStream,
}

/// A number of input frames, or the number of one.
#[repr(C)]
#[derive(Clone, Copy, Debug, Default, PartialEq, Eq, PartialOrd, Ord)]
pub struct InputFrame(pub usize);

/// A number of decoder frames, or the number of one. One is `subsampling` input frames.
#[repr(C)]
#[derive(Clone, Copy, Debug, Default, PartialEq, Eq, PartialOrd, Ord)]
pub struct DecoderFrame(pub usize);

/// A silence table's record. The phones and the table's rooms are lent to each call.
#[repr(C)]
#[derive(Clone, Copy, Debug, Default, PartialEq)]
pub struct SilenceWeighting {
    /// The weight of a frame of a silence phone.
    pub silence_weight: f32,
    /// Input frames of a decoder frame.
    pub subsampling: usize,
    /// How many silence phones are lent.
    pub phones: usize,
    /// The places of each of the table's rooms.
    pub table: usize,
    /// The frames in the table.
    pub length: DecoderFrame,
}

/// The answer of a call on a silence table, for C.
#[repr(C)]
#[derive(Clone, Copy, Debug, Default, PartialEq)]
pub struct SilenceAnswer {
    /// The number of the refusal, 0 where the call is taken.
    pub refusal: usize,
    /// How many changes the call gives.
    pub changes: usize,
    /// The record for the next call.
    pub silence: SilenceWeighting,
}
