//! The types that the calls which write a model exchange, and how an answer becomes a record.

ghost use Rattle.std.specs.Prelude.{◌≡◌};
ghost use Rattle.writer.specs.Written.{written_answer};
ghost use Rattle.writer.specs.Lent.{written_by, written_of};

use definition::Refusal;
use floats::Real;

/// A model's sizes, as they are given with its parameters.
#[repr(C)]
#[derive(Clone, Copy, Debug, Default, PartialEq, Eq)]
pub struct ModelSizes {
    /// Gaussians of the GMM.
    pub num_gauss: usize,
    /// Gaussians of the extractor.
    pub ext_gauss: usize,
    pub feat_dim: usize,
    pub ivector_dim: usize,
    pub lda_cols: usize,
}

/// A model's parameters as they are lent, all of one width; lists are row after row.
#[derive(Clone, Copy)]
pub struct LentParams<'a, W: Real> {
    pub sizes: ModelSizes,
    pub weights: &'a [W],
    /// A row of features for each Gaussian, as of `inv_vars`.
    pub means_invvars: &'a [W],
    pub inv_vars: &'a [W],
    /// M of each Gaussian: a row of the i-vector's length for each feature.
    pub m: &'a [W],
    /// Σ⁻¹ of each Gaussian, packed.
    pub sigma_inv: &'a [W],
    pub prior_offset: W,
    /// A row of columns for each feature.
    pub lda: &'a [W],
}

/// The lengths of the three files, in bytes.
#[derive(Clone, Copy, Debug, Default, PartialEq, Eq)]
pub struct FileLengths {
    pub gmm: usize,
    pub extractor: usize,
    pub lda: usize,
}

/// The answer as the record that C gets: the refusal's number, 0 where the call was taken, and the
/// lengths, 0 beside a refusal.
#[repr(C)]
#[derive(Clone, Copy, Debug, Default, PartialEq, Eq)]
pub struct WrittenAnswer {
    pub refusal: usize,
    pub gmm: usize,
    pub extractor: usize,
    pub lda: usize,
}

/// The record that C gets, with a refusal by its number, whichever it is.
#[tactic(auto, unfolding(crate::specs::Written::written_answer))]
pub fn written_answer(written: Result<FileLengths, usize>) -> WrittenAnswer
    ensures { result ≡ written_answer (written_by written) }
{
    match written {
        Ok(lengths) => WrittenAnswer {
            refusal: 0,
            gmm: lengths.gmm,
            extractor: lengths.extractor,
            lda: lengths.lda,
        },
        Err(number) => WrittenAnswer {
            refusal: number,
            ..Default::default()
        },
    }
}

impl From<Result<FileLengths, Refusal>> for WrittenAnswer {
    ghost from_gives = { λ w a. a ≡ written_answer (written_of w) };

    fn from(written: Result<FileLengths, Refusal>) -> WrittenAnswer {
        written_answer(definition::numbered(written))
    }
}
