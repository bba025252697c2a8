//! What the views of a frame read: a stream's rings, and the LDA.

ghost use Rattle.std.specs.Prelude.{◌+◌, ◌<◌, ◌≤◌, length};
ghost use Rattle.loops.specs.Ring.{rows_in};

use definition::IvectorOptions;

/// A stream, as its frames are viewed: `accepted` frames of `dim` numbers so far.
#[derive(Clone, Copy)]
pub struct StreamView<'a> {
    pub options: IvectorOptions,
    pub dim: usize,
    pub accepted: usize,
    /// The global CMVN row: `dim` sums, then the count.
    pub global: &'a [f64],
    /// The ring of frames, `dim` numbers each.
    pub frames: &'a [f32],
    /// The ring of prefix rows: row t is the sum of the frames below t.
    pub rows: &'a [f64],
    pub ghost some: { (0 < dim) × (dim ≤ 64) },
    pub ghost contexts: { (options.left_context ≤ 8) × (options.right_context ≤ 8) },
    pub ghost rooms: { (0 < rows_in (length frames.now) dim)
        × (0 < rows_in (length rows.now) dim) },
    pub ghost global_long: { dim + 1 ≤ length global.now },
    pub ghost few: { accepted ≤ 1000000000 },
}

/// The LDA: a row of the transposed table for each input number, and the offset, where each sum
/// starts.
#[derive(Clone, Copy)]
pub struct Lda<'a> {
    pub table: &'a [f32],
    pub offset: &'a [f32],
}

/// Whether frames are taken as they are, or normalised by the CMVN window.
#[derive(Clone, Copy, Debug, PartialEq)]
pub enum Features {
    Raw,
    Normalized,
}

/// A frame, and where its rows begin in their rings.
#[derive(Clone, Copy, Debug, PartialEq)]
pub struct Places {
    /// The frame's number.
    pub frame: usize,
    /// Where it begins in the ring of frames.
    pub here: usize,
    /// Where prefix row `frame + 1`, at its window's end, begins.
    pub high: usize,
    /// Where the prefix row at its window's start begins.
    pub low: usize,
}
