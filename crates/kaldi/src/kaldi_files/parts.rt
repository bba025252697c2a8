//! What the files hold, each number still to be read.

ghost use Rattle.std.specs.Prelude.{◌≡◌, ◌≤◌};
ghost use Rattle.definition.specs.Options.{max_gauss, max_feat};

use crate::kaldi_io::blocks::{Matrix, Numbers};
use crate::kaldi_io::reader::KaldiReader;

/// The GMM: a row for each Gaussian.
#[derive(Clone, Copy)]
pub struct Gmm<'a> {
    pub weights: Numbers<'a>,
    pub means_invvars: Matrix<'a>,
    pub inv_vars: Matrix<'a>,
    pub ghost rows_agree: { means_invvars.rows ≡ inv_vars.rows },
    pub ghost cols_agree: { means_invvars.cols ≡ inv_vars.cols },
    pub ghost weights_agree: { weights.count ≡ means_invvars.rows },
    pub ghost gauss_low: { 1 ≤ means_invvars.rows },
    pub ghost gauss_high: { means_invvars.rows ≤ max_gauss },
    pub ghost dim_low: { 1 ≤ means_invvars.cols },
    pub ghost dim_high: { means_invvars.cols ≤ max_feat },
}

/// The extractor.
#[derive(Clone, Copy)]
pub struct Extractor<'a> {
    pub num_gauss: usize,
    pub feat_dim: usize,
    pub ivector_dim: usize,
    /// At the first M.
    pub m: KaldiReader<'a>,
    /// At the first Σ⁻¹.
    pub sigma_inv: KaldiReader<'a>,
    /// Element 0 of the prior, whose others are 0.
    pub prior_offset: f64,
}

/// The matrices M.
#[derive(Clone, Copy)]
pub struct Means<'a> {
    pub count: usize,
    /// Of the first one.
    pub rows: usize,
    /// Of the first one.
    pub cols: usize,
    /// Whether all have these lengths.
    pub alike: bool,
    /// At the first one.
    pub m: KaldiReader<'a>,
}
