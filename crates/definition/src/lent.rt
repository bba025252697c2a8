//! What a call is lent to read: slices that always travel together. Each is a few references, and
//! copies nothing.

ghost use Rattle.std.specs.Prelude.{◌≡◌};
ghost use Rattle.definition.specs.Model.{table_lengths_of};
ghost use Rattle.definition.specs.Lent.{tables_in};

use crate::TableLengths;

/// A model's tables, as a load has filled them, each row after row.
#[derive(Clone, Copy)]
pub struct LentTables<'a> {
    /// The constant part of each Gaussian's log-likelihood.
    pub gconsts: &'a [f32],
    /// Means times inverse variances: a row of Gaussians for each feature.
    pub means_invvars_t: &'a [f32],
    /// Inverse variances: a row of Gaussians for each feature.
    pub inv_vars_t: &'a [f32],
    /// Σ⁻¹ M: for each Gaussian and each feature a row as long as the i-vector.
    pub sigma_inv_m: &'a [f64],
    /// Mᵗ Σ⁻¹ M of each Gaussian, packed.
    pub u: &'a [f64],
    /// The LDA: for each number of a spliced row a row of features.
    pub lda_t: &'a [f32],
    /// What the LDA adds to each feature; zeros where the file has none.
    pub lda_offset: &'a [f32],
    /// The global CMVN statistics: a sum for each number of a frame, then the count.
    pub global_mean_stats: &'a [f64],
}

/// A stream's two rings, to be read.
#[derive(Clone, Copy)]
pub struct LentFrames<'a> {
    /// Rows of `base_dim` numbers: the accepted frames from the mark on.
    pub frames: &'a [f32],
    /// Rows of `base_dim` numbers: row t is the sum of the frames before t.
    pub rows: &'a [f64],
}

/// The waiting changes, by frame, each frame's own in the order given.
#[derive(Clone, Copy)]
pub struct LentWaiting<'a> {
    /// The frame of each change; the record says how many wait.
    pub frames: &'a [usize],
    /// What each change adds to the weight of its frame.
    pub weights: &'a [f32],
}

impl LentTables<'_> {
    /// How many numbers each has.
    pub fn lengths(&self) -> TableLengths
        ensures { result ≡ table_lengths_of (tables_in self.now) }
    {
        TableLengths {
            gconsts: self.gconsts.len(),
            means_invvars_t: self.means_invvars_t.len(),
            inv_vars_t: self.inv_vars_t.len(),
            sigma_inv_m: self.sigma_inv_m.len(),
            u: self.u.len(),
            lda_t: self.lda_t.len(),
            lda_offset: self.lda_offset.len(),
            global_mean_stats: self.global_mean_stats.len(),
        }
    }
}
