//! Models: a load, the maker's settings, how much memory, and a model written back.

ghost use Rattle.std.specs.Prelude.{◌≡◌, length};
ghost use Rattle.std.specs.Float.{binary32, binary64};
ghost use Rattle.definition.specs.Model.{Tables, tables_from, table_lengths_of, load as load_of, loaded_of, loaded_tables};
ghost use Rattle.writer.specs.Written.{Params, params_from, written, written_out, written_answer};
ghost use Rattle.kaldi.specs.Settings.{settings_of, load_with};
ghost use Rattle.model.specs.Memory.{dimensions_of, dimensions_answer, tables_needed, rooms_needed};
ghost use Rattle.model.specs.Load.{files_of, scratch_kept};
ghost use Rattle.answers.specs.Answers.{load_answer};
ghost use Rattle.exports.specs.Answers.{settings_answer};

use answers::LoadAnswer;
use definition::{Dimensions, IvectorOptions, numbered};
use kaldi::settings;
use model::ivector_info;
use model::memory::{self, DimensionsAnswer, RoomsAnswer, TablesAnswer};
use writer::model_bytes::{LentParams, ModelSizes, WrittenAnswer};
use writer::model_writer;

// ---- load

/// Loads a model from the bytes of its four files into eight tables. With k = b (left + 1 + right)
/// the tables keep g, d g, d g, e d s, e s (s + 1) / 2, k d, d and b + 1 numbers, and scratch d (d
/// + 1) / 2 + d s; longer ones are taken. Refuses with 1 to 8. See [`ivector_info::load`].
#[unsafe(no_mangle)]
pub extern "C" fn shofrakin_load(
    opts: IvectorOptions,
    gmm: &[u8],
    extractor: &[u8],
    lda: &[u8],
    cmvn: &[u8],
    gconsts: &mut [f32],
    means_invvars_t: &mut [f32],
    inv_vars_t: &mut [f32],
    sigma_inv_m: &mut [f64],
    u: &mut [f64],
    lda_t: &mut [f32],
    lda_offset: &mut [f32],
    global_mean_stats: &mut [f64],
    scratch: &mut [f64],
) -> LoadAnswer
    ensures { (
        let t : Tables = tables_from gconsts.old means_invvars_t.old inv_vars_t.old sigma_inv_m.old
        u.old lda_t.old lda_offset.old global_mean_stats.old in
        let got = load_of opts (files_of gmm.now extractor.now lda.now cmvn.now)
        (table_lengths_of t) (length scratch.old) in
        (result ≡ load_answer opts (loaded_of got))
        × (tables_from gconsts.new means_invvars_t.new inv_vars_t.new sigma_inv_m.new
        u.new lda_t.new lda_offset.new global_mean_stats.new ≡ loaded_tables got t)
        × scratch_kept got scratch.old scratch.new) }
{
    let loaded = ivector_info::load(
        opts,
        gmm,
        extractor,
        lda,
        cmvn,
        gconsts,
        means_invvars_t,
        inv_vars_t,
        sigma_inv_m,
        u,
        lda_t,
        lda_offset,
        global_mean_stats,
        scratch,
    );
    answers::load_answer(opts, numbered(loaded))
}

// ---- the maker's settings

/// The answer of the settings: the options, or beside a refusal ones that a load refuses with 1.
#[repr(C)]
#[derive(Clone, Copy)]
pub struct SettingsAnswer {
    pub refusal: usize,
    pub opts: IvectorOptions,
}

/// The options from the texts of splice.conf and online_cmvn.conf. An option outside its range is
/// given as it is read. Refuses with 25: a text above 65,536 bytes, or a byte above 127. See
/// [`settings::read_settings`].
#[unsafe(no_mangle)]
#[tactic(auto, unfolding(crate::specs::Answers::settings_answer))]
pub extern "C" fn shofrakin_settings(splice: &[u8], online_cmvn: &[u8]) -> SettingsAnswer
    ensures { result ≡ settings_answer (settings_of splice.now online_cmvn.now) }
{
    match settings::read_settings(splice, online_cmvn) {
        Ok(opts) => SettingsAnswer { refusal: 0, opts },
        Err(e) => SettingsAnswer {
            refusal: e.number(),
            opts: answers::no_options(),
        },
    }
}

/// The options from the two settings texts, then a load with them. Refuses with 25, then with 1 to
/// 8.
#[unsafe(no_mangle)]
pub extern "C" fn shofrakin_load_with_settings(
    splice: &[u8],
    online_cmvn: &[u8],
    gmm: &[u8],
    extractor: &[u8],
    lda: &[u8],
    cmvn: &[u8],
    gconsts: &mut [f32],
    means_invvars_t: &mut [f32],
    inv_vars_t: &mut [f32],
    sigma_inv_m: &mut [f64],
    u: &mut [f64],
    lda_t: &mut [f32],
    lda_offset: &mut [f32],
    global_mean_stats: &mut [f64],
    scratch: &mut [f64],
) -> LoadAnswer
    ensures { (
        let t : Tables = tables_from gconsts.old means_invvars_t.old inv_vars_t.old sigma_inv_m.old
        u.old lda_t.old lda_offset.old global_mean_stats.old in
        let o = settings_of splice.now online_cmvn.now in
        let got = load_with splice.now online_cmvn.now
        (files_of gmm.now extractor.now lda.now cmvn.now) (table_lengths_of t)
        (length scratch.old) in
        (result ≡ load_answer (settings_answer o).opts (loaded_of got))
        × (tables_from gconsts.new means_invvars_t.new inv_vars_t.new sigma_inv_m.new
        u.new lda_t.new lda_offset.new global_mean_stats.new ≡ loaded_tables got t)
        × scratch_kept got scratch.old scratch.new) }
{
    // the two exported calls, one after the other
    let a = shofrakin_settings(splice, online_cmvn);
    let opts = a.opts;
    if a.refusal != 0 {
        return answers::load_answer(opts, Err(a.refusal));
    }
    shofrakin_load(
        opts,
        gmm,
        extractor,
        lda,
        cmvn,
        gconsts,
        means_invvars_t,
        inv_vars_t,
        sigma_inv_m,
        u,
        lda_t,
        lda_offset,
        global_mean_stats,
        scratch,
    )
}

// ---- how much memory

/// The dimensions of the model in four files, as a load judges them. Nothing is written. Refuses
/// with 1 to 7. See [`memory::model_dimensions`].
#[unsafe(no_mangle)]
pub extern "C" fn shofrakin_model_dimensions(
    opts: IvectorOptions,
    gmm: &[u8],
    extractor: &[u8],
    lda: &[u8],
    cmvn: &[u8],
) -> DimensionsAnswer
    ensures { result
        ≡ dimensions_answer (dimensions_of opts (files_of gmm.now extractor.now lda.now cmvn.now)) }
{
    memory::model_dimensions(opts, gmm, extractor, lda, cmvn)
}

/// How many numbers each table of a model keeps, and a load's scratch: no shorter one is taken.
/// Refuses with 1, 4 and 5. See [`memory::tables_needed`].
#[unsafe(no_mangle)]
pub extern "C" fn shofrakin_tables_needed(opts: IvectorOptions, dims: Dimensions) -> TablesAnswer
    ensures { result ≡ tables_needed opts dims }
{
    memory::tables_needed(opts, dims)
}

/// How many numbers each room of a stream has that holds so many frames, prefix rows and waiting
/// changes. Refuses with 4 and 8. See [`memory::rooms_needed`].
#[unsafe(no_mangle)]
pub extern "C" fn shofrakin_rooms_needed(
    dims: Dimensions,
    frames: usize,
    rows: usize,
    changes: usize,
) -> RoomsAnswer
    ensures { result ≡ rooms_needed dims frames rows changes }
{
    memory::rooms_needed(dims, frames, rows, changes)
}

// ---- a model written back

/// Writes a model's three files to the front of `out`, all numbers as f32. Refuses with 1, 4 to 7,
/// and 26 where `out` is shorter than the files. See [`model_writer::write`].
#[unsafe(no_mangle)]
pub extern "C" fn shofrakin_write_f32(
    opts: IvectorOptions,
    sizes: ModelSizes,
    cmvn: &[u8],
    weights: &[f32],
    means_invvars: &[f32],
    inv_vars: &[f32],
    m: &[f32],
    sigma_inv: &[f32],
    prior_offset: f32,
    lda: &[f32],
    out: &mut [u8],
) -> WrittenAnswer
    ensures { (
        let p : Params = params_from sizes weights.now means_invvars.now inv_vars.now m.now
        sigma_inv.now prior_offset lda.now in
        (result ≡ written_answer (written binary32 opts cmvn.now p (length out.old)))
        × (out.new ≡ written_out binary32 opts cmvn.now p out.old)) }
{
    let singles = LentParams {
        sizes,
        weights,
        means_invvars,
        inv_vars,
        m,
        sigma_inv,
        prior_offset,
        lda,
    };
    WrittenAnswer::from(model_writer::write(opts, cmvn, &singles, out))
}

/// The same with all numbers as f64.
#[unsafe(no_mangle)]
pub extern "C" fn shofrakin_write_f64(
    opts: IvectorOptions,
    sizes: ModelSizes,
    cmvn: &[u8],
    weights: &[f64],
    means_invvars: &[f64],
    inv_vars: &[f64],
    m: &[f64],
    sigma_inv: &[f64],
    prior_offset: f64,
    lda: &[f64],
    out: &mut [u8],
) -> WrittenAnswer
    ensures { (
        let p : Params = params_from sizes weights.now means_invvars.now inv_vars.now m.now
        sigma_inv.now prior_offset lda.now in
        (result ≡ written_answer (written binary64 opts cmvn.now p (length out.old)))
        × (out.new ≡ written_out binary64 opts cmvn.now p out.old)) }
{
    let doubles = LentParams {
        sizes,
        weights,
        means_invvars,
        inv_vars,
        m,
        sigma_inv,
        prior_offset,
        lda,
    };
    WrittenAnswer::from(model_writer::write(opts, cmvn, &doubles, out))
}
