//! The statistics of a speaker's i-vector: the linear and the quadratic term that frames add to,
//! and the solve for the vector. The quadratic term is a packed symmetric matrix. All numbers lie
//! in lent slices.
#![tactic(auto)]

ghost use Rattle.std.specs.Prelude.{◌≡◌, List, ◌+◌, ◌*◌, ◌<◌, ◌≤◌, length, set, if◌then◌else◌};
ghost use Rattle.std.specs.Float.Ieee.{eq};
ghost use Rattle.loops.specs.Inner.{fill};
ghost use Rattle.floats.specs.Operators.{◌+₆₄◌, ◌*₆₄◌, ◌/₆₄◌, zero₆₄, at, sum₆₄};
ghost use Rattle.floats.specs.Extremes.{larger};
ghost use Rattle.definition.specs.Kaldi.{triangle};
ghost use Rattle.definition.specs.Statistics.{Entry, new_stats, add_diagonal, rescaled, acc as acc_of};
ghost use Rattle.definition.specs.Solve.{prior_vector, get_ivector};
ghost use Rattle.gmm.specs.Batch.{Slots, Sums};
ghost use Rattle.ivector_stats.specs.Inner.{linear_term, linear_over, quadratic_over};
ghost use Rattle.ivector_stats.specs.Rooms.{stats_of, stats_lent, StatsFit, SameStats};

use algebra::basics::add_scaled;
use algebra::linear;
use algebra::packed_matrix::{self, Symmetric, weighted_rows};
use definition::IvectorInfo;
use gmm::batch_sums::RunningSums;

/// The statistics of a speaker, to be written into. `s` is the i-vector dimension.
#[derive(Drop)]
pub struct Statistics<'a> {
    /// The total weight of the frames added.
    pub num_frames: f64,
    /// `s` numbers.
    pub linear: &'a mut [f64],
    /// `s * (s + 1) / 2` numbers: the rows of the lower triangle, one after the other.
    pub quadratic: &'a mut [f64],
}

/// [`Statistics`], to be read.
#[derive(Clone, Copy)]
pub struct LentStatistics<'a> {
    pub num_frames: f64,
    pub linear: &'a [f64],
    pub quadratic: &'a [f64],
}

impl Statistics<'_> {
    /// The same numbers, to be read.
    pub fn lent(&self) -> LentStatistics<'_>
        ensures num_frames { result.num_frames ≡ self.now.num_frames }
        ensures linear { result.linear.now ≡ self.now.linear.now }
        ensures quadratic { result.quadratic.now ≡ self.now.quadratic.now }
    {
        LentStatistics {
            num_frames: self.num_frames,
            linear: self.linear,
            quadratic: self.quadratic,
        }
    }
}

/// The running sums of a batch, to be read. Slot `k` belongs to Gaussian `seen[k]`.
#[derive(Clone, Copy)]
pub struct LentSums<'a> {
    /// The Gaussians seen so far: the slots in use.
    pub count: usize,
    /// The Gaussian of each slot, in the order first seen.
    pub seen: &'a [usize],
    /// The weight of each slot.
    pub tot: &'a [f64],
    /// The weighted features of each slot, one row of `feat_dim` numbers after the other.
    pub sum: &'a [f64],
}

impl<'a> LentSums<'a> {
    /// Those of `sums`.
    pub fn of(sums: &'a RunningSums<'_>) -> LentSums<'a>
        ensures count { result.count ≡ sums.now.count }
        ensures seen { result.seen.now ≡ sums.now.seen.now }
        ensures tot { result.tot.now ≡ sums.now.tot.now }
        ensures sum { result.sum.now ≡ sums.now.sum.now }
    {
        LentSums {
            count: sums.count,
            seen: sums.seen,
            tot: sums.tot,
            sum: sums.sum,
        }
    }
}

// Adds v to the diagonal of a packed matrix of s rows.
#[tactic(auto, using(loops::proofs::Loop::loops), unfolding(definition::specs::Statistics::add_diagonal))]
fn add_diagonal(s: usize, v: f64, quadratic: &mut [f64])
    requires { (s ≤ 128) × (length quadratic.old ≡ triangle s) }
    ensures { quadratic.new ≡ add_diagonal s v quadratic.old }
{
    for i in 0..s {
        let place = packed_matrix::packed_index(i, i);
        quadratic[place] += v;
    }
}

/// The statistics before any frame, which are the prior's: `linear` has `dim` numbers, `quadratic`
/// `dim * (dim + 1) / 2`. Their frame count is 0.
pub fn new(dim: usize, prior_offset: f64, linear: &mut [f64], quadratic: &mut [f64])
    requires { (0 < dim) × (dim ≤ 128) × (length linear.old ≡ dim)
        × (length quadratic.old ≡ triangle dim) }
    ensures { (linear.new ≡ (new_stats dim prior_offset).linear)
        × (quadratic.new ≡ (new_stats dim prior_offset).quadratic) }
{
    linear.fill(0.0);
    linear[0] += prior_offset;
    quadratic.fill(0.0);
    add_diagonal(dim, 1.0, quadratic);
}

/// The prior as a vector of `dim` numbers: `prior_offset`, then zeros.
pub fn prior_vector(dim: usize, prior_offset: f64, ivector: &mut [f64])
    requires { (0 < dim) × (length ivector.old ≡ dim) }
    ensures { ivector.new ≡ prior_vector dim prior_offset }
{
    ivector.fill(0.0);
    ivector[0] = prior_offset;
}

// Adds a row to another. By index (limit: zip).
#[tactic(auto, using(loops::proofs::Loop::loops))]
fn add(row: &[f64], out: &mut [f64])
    requires { length row.now ≡ length out.old }
    ensures { out.new ≡ fill (length out.old) (λ c. at out.old c +₆₄ at row.now c) out.old }
{
    for c in 0..out.len() {
        out[c] += row[c];
    }
}

// What Gaussian g adds to the statistics, from its weight w and its weighted features x. `row` is
// scratch, one number for each element of the i-vector.
fn acc_gauss(
    g: usize,
    w: f64,
    x: &[f64],
    sigma_inv_m: &[f64],
    u: &[f64],
    stats: &mut Statistics<'_>,
    row: &mut [f64],
)
    requires rows_in { g * (length x.now * length row.old) + length x.now * length row.old
        ≤ length sigma_inv_m.now }
    requires terms_in { g * length stats.old.quadratic.now + length stats.old.quadratic.now
        ≤ length u.now }
    requires linear_long { length stats.old.linear.now ≡ length row.old }
    ensures linear { stats.new.linear.now
        ≡ fill (length row.old)
        (λ c. at stats.old.linear.now c
        +₆₄ linear_term (length x.now) (length row.old) sigma_inv_m.now g (at x.now) c)
        stats.old.linear.now }
    ensures quadratic { stats.new.quadratic.now
        ≡ fill (length stats.old.quadratic.now)
        (λ i. at stats.old.quadratic.now i +₆₄ w
        *₆₄ at u.now (g * length stats.old.quadratic.now + i)) stats.old.quadratic.now }
    ensures num_frames { stats.new.num_frames ≡ stats.old.num_frames }
    ensures loans { SameStats stats.old stats.new }
{
    let s = row.len();
    let size = x.len() * s;
    let start = g * size;
    let end = start + size;
    weighted_rows(&sigma_inv_m[start..end], s, x, row);
    add(row, stats.linear);
    let n = stats.quadratic.len();
    let from = g * n;
    let to = from + n;
    add_scaled(w, &u[from..to], stats.quadratic);
}

// What the Gaussians seen add to the two terms, in the order first seen. It returns their total
// weight. `row` is scratch. By index: a slot stands in three lists.
fn acc_batch(
    d: usize,
    sigma_inv_m: &[f64],
    u: &[f64],
    num_gauss: usize,
    sums: LentSums<'_>,
    stats: &mut Statistics<'_>,
    row: &mut [f64],
) -> f64
    requires rows_in { num_gauss * (d * length row.old) ≤ length sigma_inv_m.now }
    requires terms_in { num_gauss * length stats.old.quadratic.now ≤ length u.now }
    requires linear_long { length stats.old.linear.now ≡ length row.old }
    requires slots { Slots num_gauss d sums.count sums.seen.now sums.tot.now sums.sum.now }
    ensures linear { stats.new.linear.now
        ≡ linear_over d (length row.old) sigma_inv_m.now sums.entry.seen.now sums.entry.sum.now
        stats.old.linear.now sums.entry.count }
    ensures quadratic { stats.new.quadratic.now
        ≡ quadratic_over
        (length stats.old.quadratic.now) u.now sums.entry.seen.now sums.entry.tot.now
        stats.old.quadratic.now sums.entry.count }
    ensures weight { result ≡ sum₆₄ zero₆₄ sums.entry.count (at sums.entry.tot.now) }
    ensures num_frames { stats.new.num_frames ≡ stats.old.num_frames }
    ensures loans { SameStats stats.old stats.new }
{
    let mut tot_weight = 0.0;
    for k in 0..sums.count {
        let w = sums.tot[k];
        let start = k * d;
        let end = start + d;
        acc_gauss(
            sums.seen[k],
            w,
            &sums.sum[start..end],
            sigma_inv_m,
            u,
            stats,
            row,
        );
        tot_weight += w;
    }
    tot_weight
}

// The prior's scale at a frame count: above 1 once more than `max_count` frames are in.
fn prior_scale(num_frames: f64, max_count: f64) -> f64
    ensures { result ≡ larger num_frames max_count /₆₄ max_count }
{
    floats::max(num_frames, max_count) / max_count
}

// Counts `tot_weight` more frames, and scales the prior as the new count asks.
fn rescale(
    dim: usize,
    prior_offset: f64,
    max_count: f64,
    tot_weight: f64,
    stats: &mut Statistics<'_>,
)
    requires dim { (0 < dim) × (dim ≤ 128) }
    requires stats { StatsFit dim stats.old }
    ensures rescaled { stats_of stats.new
        ≡ rescaled dim prior_offset max_count tot_weight (stats_of stats.old) }
    ensures loans { SameStats stats.old stats.new }
{
    let old = stats.num_frames;
    let new = old + tot_weight;
    stats.num_frames = new;
    if max_count > 0.0 {
        let old_scale = prior_scale(old, max_count);
        let new_scale = prior_scale(new, max_count);
        let change = new_scale - old_scale;
        if change != 0.0 {
            stats.linear[0] += prior_offset * change;
            add_diagonal(dim, change, stats.quadratic);
        }
    }
}

/// Adds a batch's sums to the statistics, one Gaussian after the other, and rescales the prior by
/// the new frame count. `sigma_inv_m` and `u` are the model's tables.
pub fn acc(
    info: IvectorInfo,
    sigma_inv_m: &[f64],
    u: &[f64],
    sums: LentSums<'_>,
    stats: &mut Statistics<'_>,
)
    requires dim { (0 < info.dims.ivector_dim) × (info.dims.ivector_dim ≤ 128) }
    requires stats { StatsFit info.dims.ivector_dim stats.old }
    requires rows_in { info.dims.num_gauss * (info.dims.feat_dim * info.dims.ivector_dim)
        ≤ length sigma_inv_m.now }
    requires terms_in { info.dims.num_gauss * triangle info.dims.ivector_dim ≤ length u.now }
    requires slots { Slots info.dims.num_gauss info.dims.feat_dim sums.count sums.seen.now
        sums.tot.now sums.sum.now }
    ensures added { (es : List Entry)
        → Sums info.dims.feat_dim es sums.entry.count sums.entry.seen.now sums.entry.tot.now
        sums.entry.sum.now
        → stats_of stats.new
        ≡ acc_of info.dims.feat_dim info.dims.ivector_dim sigma_inv_m.now u.now info.prior_offset
        info.opts.max_count es (stats_of stats.old) }
    ensures loans { SameStats stats.old stats.new }
{
    let dim = info.dims.ivector_dim;
    // for the longest vector: there is no heap
    let mut row = [0.0f64; 128];
    let tot_weight = acc_batch(
        info.dims.feat_dim,
        sigma_inv_m,
        u,
        info.dims.num_gauss,
        sums,
        stats,
        &mut row[..dim],
    );
    rescale(
        dim,
        info.prior_offset,
        info.opts.max_count,
        tot_weight,
        stats,
    );
}

// Element 0 becomes the prior where it is 0.
fn raise(prior: f64, ivector: &mut [f64])
    requires { 0 < length ivector.old }
    ensures { ivector.new ≡ (if eq (at ivector.old 0) zero₆₄ then set ivector.old 0 prior
        else ivector.old) }
{
    if ivector[0] == 0.0 {
        ivector[0] = prior;
    }
}

/// Solves for the i-vector in place: by conjugate gradient from the vector that `ivector` holds, or
/// by Cholesky's factor where that fails. Where the frame count is not above 0 it is the prior.
/// `scratch` has `s * s` numbers or more.
pub fn get_ivector(
    info: IvectorInfo,
    stats: LentStatistics<'_>,
    ivector: &mut [f64],
    scratch: &mut [f64],
)
    requires dim { (0 < info.dims.ivector_dim) × (info.dims.ivector_dim ≤ 128) }
    requires linear { length stats.linear.now ≡ info.dims.ivector_dim }
    requires quadratic { length stats.quadratic.now ≡ triangle info.dims.ivector_dim }
    requires current { length ivector.old ≡ info.dims.ivector_dim }
    requires scratch { info.dims.ivector_dim * info.dims.ivector_dim ≤ length scratch.old }
    ensures { ivector.new ≡ get_ivector info.dims.ivector_dim info.prior_offset
        info.opts.num_cg_iters (stats_lent stats.entry) ivector.old }
{
    let dim = info.dims.ivector_dim;
    if stats.num_frames > 0.0 {
        raise(info.prior_offset, ivector);
        let a = Symmetric {
            cells: stats.quadratic,
            n: dim,
        };
        linear::linear_cgd(a, stats.linear, ivector, info.opts.num_cg_iters, scratch);
        return;
    }
    prior_vector(dim, info.prior_offset, ivector);
}
