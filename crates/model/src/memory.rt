//! How much memory a model and a stream need. Each answer is a record for C with the refusal's
//! number, 0 where the call was taken; beside a refusal stand zeros.

ghost use Rattle.std.specs.Prelude.{◌≡◌, true, ◌≤◌};
ghost use Rattle.definition.specs.Options.{max_frames, options_in_range, dims_in_range};
ghost use Rattle.definition.specs.Model.{table_sizes};
ghost use Rattle.model.specs.Load.{files_of};
ghost use Rattle.model.specs.Memory.{dimensions_of, dimensions_answer, tables_needed, room_sizes, rooms_needed};
ghost use Rattle.model.specs.Answered.{tables_or, rooms_or};

use crate::ivector_info::judge;
use definition::{
    Dimensions, EstimateLengths, IvectorOptions, Refusal, RingLengths, RoomLengths, TableLengths,
    need,
};
use limits::{dims_agree, dims_in_range, load_scratch, options_in_range, stream_scratch};

// ---- a model's dimensions

/// A model's dimensions.
#[repr(C)]
#[derive(Clone, Copy, Debug, Default, PartialEq)]
pub struct DimensionsAnswer {
    pub refusal: usize,
    pub dims: Dimensions,
}

// Lengths that are enough for every table.
const LONGEST: TableLengths = TableLengths {
    gconsts: usize::MAX,
    means_invvars_t: usize::MAX,
    inv_vars_t: usize::MAX,
    sigma_inv_m: usize::MAX,
    u: usize::MAX,
    lda_t: usize::MAX,
    lda_offset: usize::MAX,
    global_mean_stats: usize::MAX,
};

/// The dimensions of a model's files: the load's own judgement, with lengths that are enough for
/// every table.
pub fn model_dimensions(
    opts: IvectorOptions,
    gmm: &[u8],
    extractor: &[u8],
    lda: &[u8],
    cmvn: &[u8],
) -> DimensionsAnswer
    ensures { result ≡ dimensions_answer
        (dimensions_of opts (files_of gmm.now extractor.now lda.now cmvn.now)) }
{
    match judge(opts, gmm, extractor, lda, cmvn, LONGEST, usize::MAX) {
        Ok(judged) => DimensionsAnswer {
            refusal: 0,
            dims: judged.dims,
        },
        Err(e) => DimensionsAnswer {
            refusal: e.number(),
            ..DimensionsAnswer::default()
        },
    }
}

// ---- tables

/// How many numbers a model's tables keep.
#[repr(C)]
#[derive(Clone, Copy, Debug, Default, PartialEq)]
pub struct TablesAnswer {
    pub refusal: usize,
    pub tables: TableLengths,
    /// How many numbers of scratch its load needs.
    pub scratch: usize,
}

// How many numbers each table keeps.
fn table_sizes(o: IvectorOptions, d: Dimensions) -> TableLengths
    requires { (options_in_range o ≡ true) × (dims_in_range d ≡ true) }
    ensures { result ≡ table_sizes o d }
{
    let g = d.num_gauss;
    let e = d.ext_gauss;
    let f = d.feat_dim;
    let s = d.ivector_dim;
    let spliced = d.base_dim * (o.left_context + 1 + o.right_context);
    TableLengths {
        gconsts: g,
        means_invvars_t: g * f,
        inv_vars_t: g * f,
        sigma_inv_m: e * f * s,
        u: e * (s * (s + 1) / 2),
        lda_t: spliced * f,
        lda_offset: f,
        global_mean_stats: d.base_dim + 1,
    }
}

// [`tables_needed`], or why not.
#[tactic(auto, unfolding(loops::specs::Refusal::first_of, crate::specs::Memory::tables_needed))]
fn tables_of(opts: IvectorOptions, dims: Dimensions) -> Result<TablesAnswer, Refusal>
    ensures { tables_or result ≡ tables_needed opts dims }
{
    need(options_in_range(opts), Refusal::OptionRange)?;
    need(dims_in_range(dims), Refusal::DimensionRange)?;
    need(dims_agree(opts, dims), Refusal::Disagree)?;
    Ok(TablesAnswer {
        refusal: 0,
        tables: table_sizes(opts, dims),
        scratch: load_scratch(dims),
    })
}

/// The lengths of the tables and of the scratch that a load of such a model is lent.
pub fn tables_needed(opts: IvectorOptions, dims: Dimensions) -> TablesAnswer
    ensures { result ≡ tables_needed opts dims }
{
    match tables_of(opts, dims) {
        Ok(answer) => answer,
        Err(e) => TablesAnswer {
            refusal: e.number(),
            ..TablesAnswer::default()
        },
    }
}

// ---- rooms

/// How many numbers a stream's rooms have.
#[repr(C)]
#[derive(Clone, Copy, Debug, Default, PartialEq)]
pub struct RoomsAnswer {
    pub refusal: usize,
    pub lengths: RoomLengths,
}

// The lengths of rooms for so many frames, prefix rows and waiting changes.
fn room_sizes(d: Dimensions, frames: usize, rows: usize, changes: usize) -> RoomLengths
    requires { (dims_in_range d ≡ true) × (frames ≤ max_frames) × (rows ≤ 2000000000) }
    ensures { result ≡ room_sizes d frames rows changes }
{
    let b = d.base_dim;
    let s = d.ivector_dim;
    let scratch = stream_scratch(d);
    RoomLengths {
        rings: RingLengths {
            frames: frames * b,
            rows: rows * b,
            waiting_frames: changes,
            waiting_weights: changes,
        },
        estimate: EstimateLengths {
            cmvn_stats: b + 1,
            linear: s,
            quadratic: s * (s + 1) / 2,
            current: s,
            scratch,
        },
    }
}

// [`rooms_needed`], or why not.
#[tactic(auto, unfolding(loops::specs::Refusal::first_of, crate::specs::Memory::rooms_needed))]
fn rooms_of(
    dims: Dimensions,
    frames: usize,
    rows: usize,
    changes: usize,
) -> Result<RoomsAnswer, Refusal>
    ensures { rooms_or result ≡ rooms_needed dims frames rows changes }
{
    need(dims_in_range(dims), Refusal::DimensionRange)?;
    need((1..=1_000_000_000).contains(&frames), Refusal::ShortRoom)?;
    need((2..=2_000_000_000).contains(&rows), Refusal::ShortRoom)?;
    Ok(RoomsAnswer {
        refusal: 0,
        lengths: room_sizes(dims, frames, rows, changes),
    })
}

/// The lengths of the rooms of a stream that holds so many frames, prefix rows and waiting changes.
pub fn rooms_needed(dims: Dimensions, frames: usize, rows: usize, changes: usize) -> RoomsAnswer
    ensures { result ≡ rooms_needed dims frames rows changes }
{
    match rooms_of(dims, frames, rows, changes) {
        Ok(answer) => answer,
        Err(e) => RoomsAnswer {
            refusal: e.number(),
            ..RoomsAnswer::default()
        },
    }
}
