//! Limits of options, dimensions and lent lengths, and what makes a record one that no call has
//! made. Pure tests. Those that every push makes are compiled into it, `#[inline(always)]`: else
//! the model's record would be copied for each.
#![tactic(auto)]

ghost use Rattle.std.specs.Prelude.{◌≡◌, true, ◌&&◌, ◌||◌, ◌≤◌, eqb, ltb};
ghost use Rattle.std.specs.Float.Ieee.{le, lt};
ghost use Rattle.floats.specs.Operators.{zero₃₂, one₃₂};
ghost use Rattle.definition.specs.Options.{within, max_window, max_frames, options_in_range, dims_in_range, dims_agree};
ghost use Rattle.definition.specs.Model.{tables_fit, load_scratch};
ghost use Rattle.definition.specs.Machine.{frames_held, rows_held, frames_ready};
ghost use Rattle.definition.specs.Stream.{record_sound, info_sound, stream_scratch, rooms_fit, is_foreign, same_tables, same_rings, same_rooms, estimate_lengths};
ghost use Rattle.loops.specs.Lists.{pairwise};
ghost use Rattle.limits.specs.Inner.{waiting_broken, counts_broken};

use definition::{
    Dimensions, EstimateLengths, IvectorInfo, IvectorOptions, IvectorStream, RingLengths,
    RoomLengths, TableLengths,
};

// ---- options and dimensions

/// Whether a window may be set.
pub fn window_in_range(n: usize) -> bool
    ensures { result ≡ within 1 max_window n }
{
    (1..=1000).contains(&n)
}

// 0 or more, and below 1.
fn is_share(p: f32) -> bool
    ensures { result ≡ (le zero₃₂ p && lt p one₃₂) }
{
    0.0 <= p && p < 1.0
}

/// Refusal 1, where false.
#[inline(always)]
#[tactic(auto, unfolding(definition::specs::Options::options_in_range, loops::specs::Lists::all_of))]
pub fn options_in_range(o: IvectorOptions) -> bool
    ensures { result ≡ options_in_range o }
{
    if 8 < o.left_context {
        return false;
    }
    if 8 < o.right_context {
        return false;
    }
    if !(1..=1000).contains(&o.cmn_window) {
        return false;
    }
    if !(1..=10000).contains(&o.global_frames) {
        return false;
    }
    if !(1..=32).contains(&o.num_gselect) {
        return false;
    }
    if 200 < o.num_cg_iters {
        return false;
    }
    if !is_share(o.min_post) {
        return false;
    }
    if !floats::is_finite(o.posterior_scale) {
        return false;
    }
    if !floats::is_finite(o.max_count) {
        return false;
    }
    floats::is_finite(o.min_energy)
}

/// Refusal 4, where false.
#[inline(always)]
#[tactic(auto, unfolding(definition::specs::Options::dims_in_range, loops::specs::Lists::all_of))]
pub fn dims_in_range(d: Dimensions) -> bool
    ensures { result ≡ dims_in_range d }
{
    (1..=1024).contains(&d.num_gauss)
        && (1..=1024).contains(&d.ext_gauss)
        && (1..=64).contains(&d.feat_dim)
        && (1..=128).contains(&d.ivector_dim)
        && (1..=64).contains(&d.base_dim)
        && (1..=1089).contains(&d.lda_cols)
}

/// Refusal 5, where false.
#[inline(always)]
#[tactic(auto, unfolding(definition::specs::Options::dims_agree))]
pub fn dims_agree(o: IvectorOptions, d: Dimensions) -> bool
    requires { (options_in_range o ≡ true) × (dims_in_range d ≡ true) }
    ensures { result ≡ dims_agree o d }
{
    let spliced = d.base_dim * (o.left_context + 1 + o.right_context);
    d.num_gauss <= d.ext_gauss && (d.lda_cols == spliced || d.lda_cols == spliced + 1)
}

// ---- a model's record

/// Whether each table has room for what it keeps.
#[inline(always)]
pub fn tables_fit(o: IvectorOptions, d: Dimensions, z: TableLengths) -> bool
    requires { (options_in_range o ≡ true) × (dims_in_range d ≡ true) }
    ensures { result ≡ tables_fit o d z }
{
    let e = d.ext_gauss;
    let f = d.feat_dim;
    let s = d.ivector_dim;
    let spliced = d.base_dim * (o.left_context + 1 + o.right_context);
    if z.gconsts < d.num_gauss {
        return false;
    }
    if z.means_invvars_t < d.num_gauss * f {
        return false;
    }
    if z.inv_vars_t < d.num_gauss * f {
        return false;
    }
    if z.sigma_inv_m < e * f * s {
        return false;
    }
    if z.u < e * (s * (s + 1) / 2) {
        return false;
    }
    if z.lda_t < spliced * f {
        return false;
    }
    if z.lda_offset < f {
        return false;
    }
    d.base_dim + 1 <= z.global_mean_stats
}

/// Refusal 10 of a fresh stream, where false: options and dimensions that no load takes.
#[inline(always)]
#[tactic(auto, unfolding(definition::specs::Stream::record_sound, loops::specs::Lists::all_of))]
pub fn record_sound(i: IvectorInfo) -> bool
    ensures { result ≡ record_sound i }
{
    options_in_range(i.opts) && dims_in_range(i.dims) && dims_agree(i.opts, i.dims)
}

/// Whether a model's record could come from a load.
#[inline(always)]
#[tactic(auto, unfolding(definition::specs::Stream::info_sound))]
pub fn info_sound(i: IvectorInfo) -> bool
    ensures { result ≡ info_sound i }
{
    record_sound(i) && tables_fit(i.opts, i.dims, i.tables)
}

/// How many numbers of scratch a load needs.
pub fn load_scratch(d: Dimensions) -> usize
    requires { dims_in_range d ≡ true }
    ensures { result ≡ load_scratch d }
{
    d.feat_dim * (d.feat_dim + 1) / 2 + d.feat_dim * d.ivector_dim
}

/// How many numbers of scratch a fetch needs.
#[inline(always)]
#[tactic(auto, unfolding(definition::specs::Stream::stream_scratch))]
pub fn stream_scratch(d: Dimensions) -> usize
    requires { dims_in_range d ≡ true }
    ensures { result ≡ stream_scratch d }
{
    (d.num_gauss * d.feat_dim).max(d.ivector_dim * d.ivector_dim)
}

// ---- a stream's rooms

/// Refusal 8, where false. How many rows a ring has is told without a division.
#[inline(always)]
pub fn rooms_fit(d: Dimensions, z: RoomLengths) -> bool
    requires { dims_in_range d ≡ true }
    ensures { result ≡ rooms_fit d z }
{
    let s = d.ivector_dim;
    let r = z.rings;
    let e = z.estimate;
    if r.frames < d.base_dim {
        return false;
    }
    if r.rows < 2 * d.base_dim {
        return false;
    }
    if e.cmvn_stats < d.base_dim + 1 {
        return false;
    }
    if e.linear < s {
        return false;
    }
    if e.quadratic < s * (s + 1) / 2 {
        return false;
    }
    if e.current < s {
        return false;
    }
    stream_scratch(d) <= e.scratch
}

// ---- a stream's record

/// The frames from the mark on.
#[tactic(auto, unfolding(definition::specs::Machine::frames_held))]
pub fn frames_held(accepted: usize, mark: usize) -> usize
    ensures { result ≡ frames_held accepted mark }
{
    accepted.saturating_sub(mark)
}

/// The prefix rows that are held for the longest window.
#[tactic(auto, unfolding(definition::specs::Machine::rows_held))]
pub fn rows_held(longest: usize, accepted: usize, mark: usize) -> usize
    requires { (accepted ≤ max_frames) × (mark ≤ max_frames) }
    ensures { result ≡ rows_held longest accepted mark }
{
    let first = (mark + 1).saturating_sub(longest);
    (accepted + 1).saturating_sub(first)
}

/// How many frames can be fetched.
#[tactic(auto, unfolding(definition::specs::Machine::frames_ready))]
pub fn frames_ready(o: IvectorOptions, finished: bool, accepted: usize) -> usize
    ensures { result ≡ frames_ready o finished accepted }
{
    if finished {
        accepted
    } else {
        accepted.saturating_sub(o.right_context)
    }
}

// Whether the waiting changes are out of order, or one of them needs a frame below the mark. The
// first is the lowest.
fn waiting_broken(held: &[usize], left: usize, mark: usize) -> bool
    ensures { result ≡ waiting_broken held.now left mark }
{
    if !held.is_sorted() {
        return true;
    }
    match held.first() {
        Some(&lowest) => lowest.saturating_sub(left) < mark,
        None => false,
    }
}

// Whether no call left these as the window in force and the longest.
fn windows_broken(window: usize, longest: usize) -> bool
    ensures { result ≡ (eqb window 0 || ltb longest window || ltb max_window longest) }
{
    window == 0 || longest < window || 1000 < longest
}

// The counts of a record and the waiting frames, which lie in `waiting`.
#[inline(always)]
fn counts_broken(s: &IvectorStream, waiting: &[usize]) -> bool
    requires { dims_in_range s.now.info.dims ≡ true }
    ensures { result ≡ counts_broken s.now waiting.now }
{
    let left = s.info.opts.left_context;
    let dim = s.info.dims.base_dim;
    let rings = s.lengths.rings;
    if 1000000000 < s.accepted {
        return true;
    }
    if s.accepted < s.num_frames_stats {
        return true;
    }
    if s.num_frames_stats.saturating_sub(left) < s.mark {
        return true;
    }
    if s.floor.saturating_sub(left) < s.mark {
        return true;
    }
    if windows_broken(s.window, s.longest) {
        return true;
    }
    if rings.frames < frames_held(s.accepted, s.mark) * dim {
        return true;
    }
    if rings.rows < rows_held(s.longest, s.accepted, s.mark) * dim {
        return true;
    }
    if rings.waiting_frames.min(rings.waiting_weights) < s.waiting {
        return true;
    }
    // cut to the room too: a lent record may say more than there is
    waiting_broken(&waiting[..s.waiting.min(waiting.len())], left, s.mark)
}

/// Refusal 10, where true: no call made this record, whose waiting frames lie in `waiting`.
#[inline(always)]
#[tactic(auto, unfolding(definition::specs::Stream::is_foreign, definition::specs::Stream::breaks, loops::specs::Lists::any_of, crate::specs::Inner::counts_broken))]
pub fn is_foreign(s: &IvectorStream, waiting: &[usize]) -> bool
    ensures { result ≡ is_foreign s.now waiting.now }
{
    if !info_sound(s.info) {
        return true;
    }
    !rooms_fit(s.info.dims, s.lengths) || counts_broken(s, waiting)
}

// ---- the derived comparison

// Of two records of lengths the derived `==` is the definition's comparison of them, one after the
// other: these say so, each of one type. `stream` goes by them.

/// Whether tables are equally long.
#[tactic(auto, unfolding(definition::specs::Stream::same_tables))]
pub fn same_tables(a: TableLengths, b: TableLengths) -> bool
    ensures { result ≡ same_tables a b }
{
    a == b
}

/// Whether rings are.
#[tactic(auto, unfolding(definition::specs::Stream::same_rings))]
pub fn same_rings(a: RingLengths, b: RingLengths) -> bool
    ensures { result ≡ same_rings a b }
{
    a == b
}

/// Whether the rooms of a fetch are.
pub fn same_estimate(a: EstimateLengths, b: EstimateLengths) -> bool
    ensures { result ≡ pairwise eqb (estimate_lengths a) (estimate_lengths b) }
{
    a == b
}

/// Whether all rooms of a stream are.
#[tactic(auto, unfolding(definition::specs::Stream::same_rooms))]
pub fn same_rooms(a: RoomLengths, b: RoomLengths) -> bool
    ensures { result ≡ same_rooms a b }
{
    same_rings(a.rings, b.rings) && same_estimate(a.estimate, b.estimate)
}
