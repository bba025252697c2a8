//! The tables of a model's Gaussians, and the log-likelihoods of a row of features under each.

ghost use Rattle.std.specs.Prelude.{◌≡◌, ◌+◌, ◌-◌, ◌*◌, ◌≤◌, length};
ghost use Rattle.loops.specs.Inner.{fill};
ghost use Rattle.floats.specs.Operators.{◌+₃₂◌, ◌-₃₂◌, ◌*₃₂◌, f32, zero₃₂, at};
ghost use Rattle.gmm.specs.Fits.{GmmFits};

use crate::table_sums;

/// The tables of `num_gauss` Gaussians over rows of `dim` features. The two transposed tables have
/// a row of `num_gauss` numbers for each feature.
#[derive(Clone, Copy)]
pub struct DiagGmm<'a> {
    pub num_gauss: usize,
    pub dim: usize,
    /// The constant part of each log-likelihood.
    pub gconsts: &'a [f32],
    /// Means times inverse variances.
    pub means_invvars_t: &'a [f32],
    /// Inverse variances.
    pub inv_vars_t: &'a [f32],
    pub ghost fits: { GmmFits num_gauss dim (length gconsts.now) (length means_invvars_t.now)
        (length inv_vars_t.now) },
}

/// A number for each Gaussian, twice.
#[derive(Drop)]
pub struct LikeRooms<'a> {
    /// The log-likelihoods.
    pub likes: &'a mut [f32],
    /// Scratch: the sums of squares.
    pub squares: &'a mut [f32],
}

// The constants and the two sums, put together. By index (limit: zip). `b` is `&mut` only because
// two slices of one struct are lent alike in one call (limit: alike).
#[tactic(auto, using(loops::proofs::Loop::loops))]
fn add_constants(gconsts: &[f32], b: &mut [f32], out: &mut [f32])
    requires { (length out.old ≤ length gconsts.now) × (length b.old ≡ length out.old) }
    ensures { out.new ≡ fill (length out.old)
        (λ m. at gconsts.now m +₃₂ at out.old m -₃₂ f32 0x3f00_0000 *₃₂ at b.old m) out.old }
{
    for m in 0..out.len() {
        out[m] = gconsts[m] + out[m] - 0.5 * b[m];
    }
}

impl DiagGmm<'_> {
    ghost use Rattle.gmm.specs.Inner.DiagGmmRooms.{likes_of, SameLikes};

    /// The log-likelihood of the row `x` under each Gaussian, into `rooms.likes`.
    pub fn loglikes(self, x: &[f32], rooms: &mut LikeRooms<'_>)
        requires likes_long { length rooms.old.likes.now ≡ self.num_gauss }
        requires squares_long { length rooms.old.squares.now ≡ self.num_gauss }
        requires x_long { self.dim ≤ length x.now }
        ensures likes { rooms.new.likes.now ≡ likes_of self.entry x.now }
        ensures loans { SameLikes rooms.old rooms.new }
    {
        rooms.likes.fill(0.0);
        rooms.squares.fill(0.0);
        table_sums::add_rows(self.means_invvars_t, x, |v| v, self.dim, rooms.likes);
        table_sums::add_rows(self.inv_vars_t, x, |v| v * v, self.dim, rooms.squares);
        add_constants(self.gconsts, rooms.squares, rooms.likes);
    }
}
