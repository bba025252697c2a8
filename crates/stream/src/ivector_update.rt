//! A fetch's work on the estimate: the batch's sums go into the statistics, and the i-vector is
//! solved for.

ghost use Rattle.std.specs.Prelude.{◌≡◌, true, ◌<◌, length};
ghost use Rattle.definition.specs.Lent.{tables_in};
ghost use Rattle.definition.specs.Model.{table_lengths_of, table_sizes, tables_fit, kept_tables, Model, model_in};
ghost use Rattle.definition.specs.Views.{Frames};
ghost use Rattle.definition.specs.Changes.{Batch};
ghost use Rattle.definition.specs.Estimate.{Estimate, nans_over, updated};
ghost use Rattle.definition.specs.Stream.{record_sound, rooms_fit};
ghost use Rattle.program.specs.Rooms.{EstimateRooms, estimate_from, rooms_from, room_lengths_of, ring_frames, estimate_at};
ghost use Rattle.program.specs.Lent.{rings_in};
ghost use Rattle.program.specs.Calls.{over_estimate};
ghost use Rattle.stream.specs.Inner.IvectorBatch.{batch_in, places_of, Held, HeldWhereTaken};
ghost use Rattle.stream.specs.Fetched.{model_of, frames_of, whole_of};
ghost use Rattle.stream.specs.Inner.IvectorUpdate.{Solvable, learnt, RoomsFit, SameRooms};

use crate::ivector_batch::{FetchBatch, Intake};
use definition::{IvectorInfo, LentFrames, LentTables};
use gmm::batch_sums::RunningSums;
use gmm::diag_gmm::LikeRooms;
use ivector_stats::{LentStatistics, LentSums, Statistics};

/// What an update returns: the statistics' frame count, and how many likelihoods of the batch were
/// NaN.
#[derive(Clone, Copy)]
pub struct Update {
    pub num_frames: f64,
    pub nans: usize,
}

/// Scratch of a batch: a number for each Gaussian in each slice.
#[derive(Drop)]
pub struct GaussianRooms<'a> {
    pub likes: &'a mut [f32],
    pub squares: &'a mut [f32],
    pub seen: &'a mut [usize],
    pub tot: &'a mut [f64],
}

// Adds a batch of at least one place to the statistics, and solves.
fn update_batch(
    batch: &FetchBatch<'_>,
    num_frames: f64,
    cmvn_stats: &mut [f64],
    linear: &mut [f64],
    quadratic: &mut [f64],
    current: &mut [f64],
    scratch: &mut [f64],
    rooms: &mut GaussianRooms<'_>,
) -> Update
    requires some { 0 < places_of batch.now.intake }
    requires solvable { Solvable batch.now
        (estimate_from cmvn_stats.old linear.old quadratic.old current.old) (length scratch.old) }
    requires rooms { RoomsFit batch.now.info.dims.num_gauss rooms.old }
    ensures learnt { learnt result.num_frames
        (estimate_from cmvn_stats.new linear.new quadratic.new current.new)
        ≡ updated (model_of batch.now) (frames_of batch.now) (whole_of batch.now)
        (learnt num_frames (estimate_from cmvn_stats.old linear.old quadratic.old current.old)) }
    ensures nans { result.nans
        ≡ nans_over (model_of batch.now) (frames_of batch.now) (whole_of batch.now) cmvn_stats.old }
    ensures loans { SameRooms rooms.old rooms.new }
{
    let mut likes = LikeRooms {
        likes: rooms.likes,
        squares: rooms.squares,
    };
    let mut sums = RunningSums {
        count: 0,
        seen: rooms.seen,
        tot: rooms.tot,
        sum: scratch,
    };
    let nans = batch.take_batch(cmvn_stats, &mut likes, &mut sums);
    let mut stats = Statistics {
        num_frames,
        linear,
        quadratic,
    };
    let t = batch.tables;
    ivector_stats::acc(
        batch.info,
        t.sigma_inv_m,
        t.u,
        LentSums::of(&sums),
        &mut stats,
    );
    let learnt = stats.lent();
    ivector_stats::get_ivector(batch.info, learnt, current, scratch);
    Update {
        num_frames: stats.num_frames,
        nans,
    }
}

/// Adds the batch to the statistics, where it is not empty, and solves for the current vector.
/// `scratch` has `num_gauss * feat_dim` numbers or more, and `s * s` or more.
pub fn update_stats_until(
    batch: &FetchBatch<'_>,
    num_frames: f64,
    cmvn_stats: &mut [f64],
    linear: &mut [f64],
    quadratic: &mut [f64],
    current: &mut [f64],
    scratch: &mut [f64],
) -> Update
    requires { Solvable batch.now
        (estimate_from cmvn_stats.old linear.old quadratic.old current.old) (length scratch.old) }
    ensures learnt { learnt result.num_frames
        (estimate_from cmvn_stats.new linear.new quadratic.new current.new)
        ≡ updated (model_of batch.now) (frames_of batch.now) (whole_of batch.now)
        (learnt num_frames (estimate_from cmvn_stats.old linear.old quadratic.old current.old)) }
    ensures nans { result.nans
        ≡ nans_over (model_of batch.now) (frames_of batch.now) (whole_of batch.now) cmvn_stats.old }
{
    let g = batch.info.dims.num_gauss;
    if batch.intake.places() == 0 {
        let stats = LentStatistics {
            num_frames,
            linear,
            quadratic,
        };
        ivector_stats::get_ivector(batch.info, stats, current, scratch);
        return Update {
            num_frames,
            nans: 0,
        };
    }
    // arrays, as there is no heap; few Gaussians have small ones: clearing 1,024 would cost more
    // than the work
    if g <= 64 {
        let mut likes = [0.0f32; 64];
        let mut squares = [0.0f32; 64];
        let mut seen = [0usize; 64];
        let mut tot = [0.0f64; 64];
        let mut rooms = GaussianRooms {
            likes: &mut likes[..g],
            squares: &mut squares[..g],
            seen: &mut seen[..g],
            tot: &mut tot[..g],
        };
        return update_batch(
            batch, num_frames, cmvn_stats, linear, quadratic, current, scratch, &mut rooms,
        );
    }
    let mut likes = [0.0f32; 1024];
    let mut squares = [0.0f32; 1024];
    let mut seen = [0usize; 1024];
    let mut tot = [0.0f64; 1024];
    let mut rooms = GaussianRooms {
        likes: &mut likes[..g],
        squares: &mut squares[..g],
        seen: &mut seen[..g],
        tot: &mut tot[..g],
    };
    update_batch(
        batch, num_frames, cmvn_stats, linear, quadratic, current, scratch, &mut rooms,
    )
}

// The tables, each cut to the length that the record states: C may lend longer ones.
fn kept<'a>(info: IvectorInfo, tables: LentTables<'a>) -> LentTables<'a>
    requires sound { record_sound info ≡ true }
    requires fit { tables_fit info.opts info.dims (table_lengths_of (tables_in tables)) ≡ true }
    ensures { tables_in result
        ≡ kept_tables (table_sizes info.opts info.dims) (tables_in tables.entry) }
{
    let o = info.opts;
    let d = info.dims;
    let s = d.ivector_dim;
    let row = d.base_dim + 1;
    let cells = d.num_gauss * d.feat_dim;
    let sigma_cells = d.ext_gauss * d.feat_dim * s;
    let u_cells = d.ext_gauss * (s * (s + 1) / 2);
    let lda_cells = d.base_dim * (o.left_context + 1 + o.right_context) * d.feat_dim;
    LentTables {
        gconsts: &tables.gconsts[..d.num_gauss],
        means_invvars_t: &tables.means_invvars_t[..cells],
        inv_vars_t: &tables.inv_vars_t[..cells],
        sigma_inv_m: &tables.sigma_inv_m[..sigma_cells],
        u: &tables.u[..u_cells],
        lda_t: &tables.lda_t[..lda_cells],
        lda_offset: &tables.lda_offset[..d.feat_dim],
        global_mean_stats: &tables.global_mean_stats[..row],
    }
}

/// [`update_stats_until`] on tables and an estimate as they are lent, which may be longer than the
/// record states: each is cut to its length first.
pub fn update_rooms(
    info: IvectorInfo,
    intake: Intake<'_>,
    tables: LentTables<'_>,
    held: LentFrames<'_>,
    num_frames: f64,
    cmvn_stats: &mut [f64],
    linear: &mut [f64],
    quadratic: &mut [f64],
    current: &mut [f64],
    scratch: &mut [f64],
) -> Update
    requires sound { record_sound info ≡ true }
    requires tables_fit { tables_fit info.opts info.dims (table_lengths_of (tables_in tables))
        ≡ true }
    requires rooms_fit { rooms_fit info.dims
        (room_lengths_of (rooms_from (rings_in held intake.waiting)
        (estimate_from cmvn_stats.old linear.old quadratic.old current.old)) (length scratch.old))
        ≡ true }
    requires held { Held info.opts intake }
    ensures { (
        let M : Model = model_in info (tables_in tables.entry) in
        let z : EstimateRooms = estimate_from cmvn_stats.old linear.old quadratic.old current.old in
        let F : Frames = ring_frames info.dims.base_dim intake.entry.accepted held.entry.frames.now
        held.entry.rows.now in
        let bs : Batch = batch_in info.opts intake.entry in
        let e : Estimate = updated M F bs (estimate_at info.dims num_frames z) in
        (result.num_frames ≡ e.stats.num_frames)
        × (estimate_from cmvn_stats.new linear.new quadratic.new current.new ≡ over_estimate e z)
        × (result.nans ≡ nans_over M F bs (estimate_at info.dims num_frames z).cmvn)) }
{
    let s = info.dims.ivector_dim;
    let row = info.dims.base_dim + 1;
    let packed = s * (s + 1) / 2;
    let batch = FetchBatch {
        info,
        tables: kept(info, tables),
        held,
        intake,
    };
    update_stats_until(
        &batch,
        num_frames,
        &mut cmvn_stats[..row],
        &mut linear[..s],
        &mut quadratic[..packed],
        &mut current[..s],
        scratch,
    )
}

/// [`update_rooms`] for a batch that is asked for less, as a [`TakenBatch`] is.
///
/// [`TakenBatch`]: crate::ivector_batch::TakenBatch
pub fn update_rooms_taken(
    info: IvectorInfo,
    intake: Intake<'_>,
    tables: LentTables<'_>,
    held: LentFrames<'_>,
    num_frames: f64,
    cmvn_stats: &mut [f64],
    linear: &mut [f64],
    quadratic: &mut [f64],
    current: &mut [f64],
    scratch: &mut [f64],
) -> Update
    requires sound { record_sound info ≡ true }
    requires tables_fit { tables_fit info.opts info.dims (table_lengths_of (tables_in tables))
        ≡ true }
    requires rooms_fit { rooms_fit info.dims
        (room_lengths_of (rooms_from (rings_in held intake.waiting)
        (estimate_from cmvn_stats.old linear.old quadratic.old current.old)) (length scratch.old))
        ≡ true }
    requires held { HeldWhereTaken info.opts intake }
    ensures { (
        let M : Model = model_in info (tables_in tables.entry) in
        let z : EstimateRooms = estimate_from cmvn_stats.old linear.old quadratic.old current.old in
        let F : Frames = ring_frames info.dims.base_dim intake.entry.accepted held.entry.frames.now
        held.entry.rows.now in
        let bs : Batch = batch_in info.opts intake.entry in
        let e : Estimate = updated M F bs (estimate_at info.dims num_frames z) in
        (result.num_frames ≡ e.stats.num_frames)
        × (estimate_from cmvn_stats.new linear.new quadratic.new current.new ≡ over_estimate e z)
        × (result.nans ≡ nans_over M F bs (estimate_at info.dims num_frames z).cmvn)) }
{
    let taken = intake.taken();
    update_rooms(
        info, taken, tables, held, num_frames, cmvn_stats, linear, quadratic, current, scratch,
    )
}
