//! The running sums of a batch: each frame's posteriors, once weighed, are added to the slots of
//! their Gaussians. The slots lie in lent slices.

ghost use Rattle.std.specs.Prelude.{◌≡◌, ℕ, ◌+◌, ◌*◌, ◌<◌, ◌≤◌, List, [], ◌∷◌, ◌++◌, map, length, replicate, ◌≢◌, slice_index, slice_set, Float};
ghost use Rattle.loops.specs.Lists.{build};
ghost use Rattle.loops.specs.Inner.{fill};
ghost use Rattle.loops.specs.Ring.{put};
ghost use Rattle.floats.specs.Operators.{◌+₆₄◌, ◌*₆₄◌, zero₆₄, at};
ghost use Rattle.definition.specs.Posteriors.{posteriors, nans_of};
ghost use Rattle.definition.specs.Statistics.{Entry};
ghost use Rattle.gmm.specs.Inner.DiagGmmRooms.{likes_of, SameLikes};
ghost use Rattle.gmm.specs.Inner.LeadingRooms.{HasPlaces};
ghost use Rattle.gmm.specs.Inner.Leading.{posts_in};
ghost use Rattle.gmm.specs.Batch.{entry_of, scaled_entry, Logged};
ghost use Rattle.gmm.specs.Inner.BatchSumsRooms.{SlotsIn, Grown, SameSums};

use crate::diag_gmm::{DiagGmm, LikeRooms};
use crate::leading::Chosen;
use crate::posteriors;
use definition::FrameWeight;

/// The running sums of a batch. The first `count` slots are in use, one for each Gaussian in the
/// order first seen.
#[derive(Drop)]
pub struct RunningSums<'a> {
    pub count: usize,
    /// The Gaussian of each slot.
    pub seen: &'a mut [usize],
    /// The weight of each slot.
    pub tot: &'a mut [f64],
    /// The weighted features of each slot, one row of `d` numbers after the other.
    pub sum: &'a mut [f64],
}

/// A frame's features, `d` numbers each: posteriors are computed from the normalised ones, sums
/// from the raw ones.
#[derive(Clone, Copy)]
pub struct LentFeatures<'a> {
    pub normalized: &'a [f32],
    pub raw: &'a [f32],
}

// The slot of Gaussian g, or `count` where it has none.
fn slot_of(g: usize, sums: &RunningSums<'_>) -> usize
    requires { sums.now.count ≤ length sums.now.seen.now }
    ensures most { result ≤ sums.now.count }
    ensures none_before { (k : ℕ) → k < result → slice_index sums.now.seen.now k ≢ g }
    ensures here { result < sums.now.count → slice_index sums.now.seen.now result ≡ g }
{
    let m = sums.count;
    sums.seen[..m].iter().position(|s| *s == g).unwrap_or(m)
}

// Adds w times the features x to a row. By index (limit: zip).
#[tactic(auto, using(loops::proofs::Loop::loops))]
fn add_features(w: f64, x: &[f32], row: &mut [f64])
    requires { length row.old ≤ length x.now }
    ensures { row.new ≡ fill (length row.old) (λ a. at row.old a +₆₄ w *₆₄ at x.now a) row.old }
{
    for a in 0..row.len() {
        row[a] += w * std::num::f32_to_f64_with_nan(x[a]);
    }
}

// Opens the next slot, for Gaussian g, with no weight yet.
fn open_slot(g: usize, d: usize, sums: &mut RunningSums<'_>)
    requires { (sums.old.count < length sums.old.seen.now)
        × (sums.old.count < length sums.old.tot.now)
        × (sums.old.count * d + d ≤ length sums.old.sum.now) }
    ensures count { sums.new.count ≡ sums.old.count + 1 }
    ensures seen { sums.new.seen.now ≡ slice_set sums.old.seen.now sums.old.count g }
    ensures tot { sums.new.tot.now ≡ slice_set sums.old.tot.now sums.old.count zero₆₄ }
    ensures sum { sums.new.sum.now
        ≡ put (sums.old.count * d) (replicate d zero₆₄) sums.old.sum.now }
    ensures loans { SameSums sums.old sums.new }
{
    let k = sums.count;
    sums.seen[k] = g;
    sums.tot[k] = 0.0;
    let start = k * d;
    let end = start + d;
    sums.sum[start..end].fill(0.0);
    sums.count = k + 1;
}

// Adds the weight w, and w times the features x, to slot k.
fn add_to_slot(k: usize, w: f64, x: &[f32], d: usize, sums: &mut RunningSums<'_>)
    requires { (k < length sums.old.tot.now) × (d ≤ length x.now)
        × (k * d + d ≤ length sums.old.sum.now) }
    ensures count { sums.new.count ≡ sums.old.count }
    ensures seen { sums.new.seen.now ≡ sums.old.seen.now }
    ensures tot { sums.new.tot.now ≡ slice_set sums.old.tot.now k (at sums.old.tot.now k +₆₄ w) }
    ensures sum { sums.new.sum.now
        ≡ put (k * d) (build d (λ a. at sums.old.sum.now (k * d + a) +₆₄ w *₆₄ at x.now a))
        sums.old.sum.now }
    ensures loans { SameSums sums.old sums.new }
{
    sums.tot[k] += w;
    let start = k * d;
    let end = start + d;
    add_features(w, x, &mut sums.sum[start..end]);
}

// Adds a posterior w of Gaussian g, at a frame of raw features x, to the Gaussian's slot. A
// Gaussian not seen before gets the next slot.
fn add_posterior(
    g: usize,
    w: f64,
    x: &[f32],
    d: usize,
    num_gauss: usize,
    sums: &mut RunningSums<'_>,
)
    requires below { g < num_gauss }
    requires x_long { d ≤ length x.now }
    requires slots { SlotsIn num_gauss d sums.old }
    ensures grown { Grown num_gauss d (entry_of x.now (g, w) ∷ []) sums.old sums.new }
    ensures loans { SameSums sums.old sums.new }
{
    let m = sums.count;
    let k = slot_of(g, sums);
    if k < m {
        add_to_slot(k, w, x, d, sums);
        return;
    }
    open_slot(g, d, sums);
    add_to_slot(m, w, x, d, sums);
}

// Adds the first n chosen posteriors of a frame, each times `scale`, to their Gaussians' slots.
// `chosen` has more places than are in use.
fn acc_posteriors(
    n: usize,
    scale: f32,
    chosen: &Chosen<'_>,
    raw: &[f32],
    d: usize,
    num_gauss: usize,
    sums: &mut RunningSums<'_>,
)
    requires places { HasPlaces n chosen.now }
    requires below { (k : ℕ) → k < n → slice_index chosen.now.gauss.now k < num_gauss }
    requires raw_long { d ≤ length raw.now }
    requires slots { SlotsIn num_gauss d sums.old }
    ensures grown { Grown num_gauss d
        (map (scaled_entry scale raw.now) (posts_in n chosen.now.gauss.now chosen.now.posts.now))
        sums.old sums.new }
    ensures loans { SameSums sums.old sums.new }
{
    // by index: a posterior stands in two lists
    for i in 0..n {
        let w = std::num::f32_to_f64_with_nan(chosen.posts[i] * scale);
        add_posterior(chosen.gauss[i], w, raw, d, num_gauss, sums);
    }
}

/// Adds a frame of the batch to the running sums, and returns how many of its likelihoods were NaN.
/// A skipped frame adds nothing and asks for no likelihood. `ln` is the logarithm of the weight's
/// prune floor. `rooms` is scratch, one number for each Gaussian.
pub fn acc_frame(
    gmm: DiagGmm<'_>,
    num_gselect: usize,
    weight: FrameWeight,
    ln: f32,
    features: LentFeatures<'_>,
    rooms: &mut LikeRooms<'_>,
    sums: &mut RunningSums<'_>,
) -> usize
    requires features_long { (gmm.dim ≤ length features.normalized.now)
        × (gmm.dim ≤ length features.raw.now) }
    requires rooms_long { (length rooms.old.likes.now ≡ gmm.num_gauss)
        × (length rooms.old.squares.now ≡ gmm.num_gauss) }
    requires few { num_gselect ≤ 32 }
    requires slots { SlotsIn gmm.num_gauss gmm.dim sums.old }
    requires log { Logged weight ln }
    ensures grown { Grown gmm.entry.num_gauss gmm.entry.dim
        (map (entry_of features.entry.raw.now)
        (posteriors num_gselect weight (likes_of gmm.entry features.entry.normalized.now)))
        sums.old sums.new }
    ensures nans { result ≡ nans_of weight (likes_of gmm.entry features.entry.normalized.now) }
    ensures loans { SameSums sums.old sums.new }
    ensures like_loans { SameLikes rooms.old rooms.new }
{
    match weight {
        FrameWeight::Skipped => 0,
        FrameWeight::Weighed(floor, scale) => {
            let mut gauss = [0usize; 32];
            let mut posts = [0.0f32; 32];
            let mut chosen = Chosen {
                gauss: &mut gauss,
                posts: &mut posts,
            };
            gmm.loglikes(features.normalized, rooms);
            let selection = posteriors::select_by(rooms.likes, num_gselect, floor, ln, &mut chosen);
            acc_posteriors(
                selection.count,
                scale,
                &chosen,
                features.raw,
                gmm.dim,
                gmm.num_gauss,
                sums,
            );
            selection.nans
        }
    }
}
