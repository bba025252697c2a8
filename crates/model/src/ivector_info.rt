//! Load: a model's four files judged in a first pass that writes nothing, then its tables filled.
//! As `IvectorInfo::open` in the Rust. Files, tables and scratch go one by one, as the C interface
//! lends them.

ghost use Rattle.std.specs.Prelude.{◌≡◌, ◌≤◌, ◌*◌, ◌&&◌, true, ℕ, List, IfOk, leb, length};
ghost use Rattle.std.specs.Float.{binary32};
ghost use Rattle.loops.specs.Lists.{build, over};
ghost use Rattle.definition.specs.Number.{numbered};
ghost use Rattle.definition.specs.Options.{options_in_range, dims_in_range, spliced};
ghost use Rattle.definition.specs.Reader.{need};
ghost use Rattle.definition.specs.Text.{line};
ghost use Rattle.definition.specs.Model.{gconst, transposed, lda_offset_of, Tables, tables_from, table_lengths_of, tables_fit, load_scratch, load as load_of, loaded_of, loaded_tables};
ghost use Rattle.kaldi.specs.Inner.KaldiIoGot.{parsed, as_read, matrix_in};
ghost use Rattle.kaldi.specs.Parts.{gmm_in};
ghost use Rattle.kaldi.specs.Inner.KaldiTextAnswers.{cells};
ghost use Rattle.model.specs.Load.{files_of, scratch_kept};
ghost use Rattle.model.specs.Inner.IvectorInfo.{contents, contents_in, ContentsIn, dims_in, agreeing, judged_in, JudgedIn, LdaFits};

use crate::ivector_tables::{
    fill_gaussians, fill_gconsts, fill_global, fill_offset, fill_transposed,
};
use definition::{Dimensions, IvectorInfo, IvectorOptions, Refusal, TableLengths, need};
use kaldi::kaldi_files::checks::{check_extractor, check_gmm, check_lda};
use kaldi::kaldi_files::parts::{Extractor, Gmm};
use kaldi::kaldi_io::blocks::Matrix;
use kaldi::kaldi_io::reader::KaldiReader;
use kaldi::kaldi_text::{Cmvn, check_cmvn};
use limits::{dims_agree, load_scratch, options_in_range, tables_fit};

// ---- the first pass

/// What the four files hold, each number still to be read.
#[derive(Clone, Copy)]
pub struct Contents<'a> {
    pub gmm: Gmm<'a>,
    pub extractor: Extractor<'a>,
    pub lda: Matrix<'a>,
    /// The first row of the CMVN text.
    pub row: Cmvn,
}

impl Contents<'_> {
    fn dims(&self) -> Dimensions
        ensures { result ≡ dims_in self.now }
    {
        Dimensions {
            num_gauss: self.gmm.inv_vars.rows,
            ext_gauss: self.extractor.num_gauss,
            feat_dim: self.extractor.feat_dim,
            ivector_dim: self.extractor.ivector_dim,
            base_dim: self.row.len.saturating_sub(1),
            lda_cols: self.lda.cols,
        }
    }
}

// 2 to 7, file by file.
#[tactic(auto, unfolding(crate::specs::Inner::IvectorInfo::contents))]
fn check_files<'a>(
    gmm: &'a [u8],
    extractor: &'a [u8],
    lda: &'a [u8],
    cmvn: &'a [u8],
) -> Result<Contents<'a>, Refusal>
    ensures value { parsed (contents_in cmvn.now) result 0
        ≡ contents (files_of gmm.now extractor.now lda.now cmvn.now) }
    ensures stands { IfOk result (ContentsIn cmvn.now) }
{
    let gmm = check_gmm(&mut KaldiReader::new(gmm))?;
    let extractor = check_extractor(&mut KaldiReader::new(extractor))?;
    let lda = check_lda(&mut KaldiReader::new(lda))?;
    let row = check_cmvn(cmvn)?;
    Ok(Contents {
        gmm,
        extractor,
        lda,
        row,
    })
}

// 5: whether the files agree with one another.
#[tactic(auto, unfolding(loops::specs::Refusal::first_of, loops::specs::Lists::all_of))]
fn need_agreeing(
    opts: IvectorOptions,
    dims: Dimensions,
    files: &Contents<'_>,
) -> Result<(), Refusal>
    requires options { options_in_range opts ≡ true }
    requires dims_in { dims_in_range dims ≡ true }
    ensures { (s : List ℕ) (at : ℕ)
        → parsed as_read result at ≡ need (agreeing opts dims files.now) 5 s at }
{
    need(dims_agree(opts, dims), Refusal::Disagree)?;
    need(
        files.lda.rows == files.extractor.feat_dim,
        Refusal::Disagree,
    )?;
    need(
        files.gmm.inv_vars.cols == files.extractor.feat_dim,
        Refusal::Disagree,
    )
}

// 8: whether the tables and the scratch are long enough.
#[tactic(auto, unfolding(loops::specs::Refusal::first_of))]
fn need_room(
    opts: IvectorOptions,
    dims: Dimensions,
    z: TableLengths,
    scratch: usize,
) -> Result<(), Refusal>
    requires options { options_in_range opts ≡ true }
    requires dims_in { dims_in_range dims ≡ true }
    ensures { (s : List ℕ) (at : ℕ)
        → parsed as_read result at
        ≡ need (tables_fit opts dims z && leb (load_scratch dims) scratch) 8 s at }
{
    need(tables_fit(opts, dims, z), Refusal::ShortRoom)?;
    need(load_scratch(dims) <= scratch, Refusal::ShortRoom)
}

/// A model that can be loaded: its dimensions, and what its files hold.
#[derive(Clone, Copy)]
pub struct Judged<'a> {
    pub dims: Dimensions,
    pub files: Contents<'a>,
}

/// 1 to 8, with z the lengths of the lent tables and `scratch` that of scratch.
#[tactic(auto, unfolding(loops::specs::Refusal::first_of, definition::specs::Model::load, definition::specs::Model::loading, definition::specs::Model::judged, crate::specs::Inner::IvectorInfo::contents))]
pub fn judge<'a>(
    opts: IvectorOptions,
    gmm: &'a [u8],
    extractor: &'a [u8],
    lda: &'a [u8],
    cmvn: &'a [u8],
    z: TableLengths,
    scratch: usize,
) -> Result<Judged<'a>, Refusal>
    ensures value { parsed (judged_in opts cmvn.now z) result 0
        ≡ load_of opts (files_of gmm.now extractor.now lda.now cmvn.now) z scratch }
    ensures stands { IfOk result (JudgedIn opts cmvn.now z scratch) }
{
    need(options_in_range(opts), Refusal::OptionRange)?;
    let files = check_files(gmm, extractor, lda, cmvn)?;
    let dims = files.dims();
    need_agreeing(opts, dims, &files)?;
    need_room(opts, dims, z, scratch)?;
    Ok(Judged { dims, files })
}

// ---- the second pass

// The tables of the GMM's file.
fn fill_gmm(gmm: &Gmm<'_>, gconsts: &mut [f32], means_invvars_t: &mut [f32], inv_vars_t: &mut [f32])
    requires gconsts_fit { gmm.now.inv_vars.rows ≤ length gconsts.old }
    requires means_fit { gmm.now.inv_vars.cols * gmm.now.inv_vars.rows
        ≤ length means_invvars_t.old }
    requires vars_fit { gmm.now.inv_vars.cols * gmm.now.inv_vars.rows ≤ length inv_vars_t.old }
    ensures gconsts_after { gconsts.new ≡ over
        (build gmm.now.inv_vars.rows (gconst (gmm_in gmm.now))) gconsts.old }
    ensures means_after { means_invvars_t.new
        ≡ over (transposed gmm.now.inv_vars.cols (matrix_in binary32 gmm.now.means_invvars))
        means_invvars_t.old }
    ensures vars_after { inv_vars_t.new ≡ over
        (transposed gmm.now.inv_vars.cols (matrix_in binary32 gmm.now.inv_vars)) inv_vars_t.old }
{
    let dim = gmm.inv_vars.cols;
    fill_gconsts(gmm, gconsts);
    fill_transposed(&gmm.means_invvars, dim, means_invvars_t);
    fill_transposed(&gmm.inv_vars, dim, inv_vars_t);
}

// The tables of the LDA's file and of the CMVN text.
fn fill_lda(
    opts: IvectorOptions,
    judged: &Judged<'_>,
    cmvn: &[u8],
    lda_t: &mut [f32],
    lda_offset: &mut [f32],
    global_mean_stats: &mut [f64],
)
    requires { LdaFits opts cmvn.now judged.now (length lda_t.old) (length lda_offset.old)
        (length global_mean_stats.old) }
    ensures lda_after { lda_t.new ≡ over
        (transposed (spliced opts judged.now.dims)
        (matrix_in binary32 judged.now.files.lda)) lda_t.old }
    ensures offset_after { lda_offset.new ≡ over
        (build judged.now.dims.feat_dim
        (lda_offset_of (spliced opts judged.now.dims) (matrix_in binary32 judged.now.files.lda)))
        lda_offset.old }
    ensures global_after { global_mean_stats.new
        ≡ over (cells (line cmvn.now judged.now.files.row.from)) global_mean_stats.old }
{
    let lda = &judged.files.lda;
    let row = judged.files.row;
    let spliced = judged.dims.base_dim * (opts.left_context + 1 + opts.right_context);
    fill_transposed(lda, spliced, lda_t);
    fill_offset(lda, spliced, lda_offset);
    fill_global(cmvn, row.from, row.len, global_mean_stats);
}

// ---- the load

/// Loads a model from the bytes of its four files into lent tables, and returns its record. A
/// refusal writes nothing.
pub fn load(
    opts: IvectorOptions,
    gmm: &[u8],
    extractor: &[u8],
    lda: &[u8],
    cmvn: &[u8],
    gconsts: &mut [f32],
    means_invvars_t: &mut [f32],
    inv_vars_t: &mut [f32],
    sigma_inv_m: &mut [f64],
    u: &mut [f64],
    lda_t: &mut [f32],
    lda_offset: &mut [f32],
    global_mean_stats: &mut [f64],
    scratch: &mut [f64],
) -> Result<IvectorInfo, Refusal>
    ensures { (
        let t : Tables = tables_from gconsts.old means_invvars_t.old inv_vars_t.old sigma_inv_m.old u.old lda_t.old lda_offset.old global_mean_stats.old in
        let model_read = load_of opts (files_of gmm.now extractor.now lda.now cmvn.now) (table_lengths_of t) (length scratch.old) in
        (numbered result ≡ loaded_of model_read)
        × (tables_from gconsts.new means_invvars_t.new inv_vars_t.new sigma_inv_m.new u.new
        lda_t.new lda_offset.new global_mean_stats.new
        ≡ loaded_tables model_read t)
        × scratch_kept model_read scratch.old scratch.new) }
{
    let tables = TableLengths {
        gconsts: gconsts.len(),
        means_invvars_t: means_invvars_t.len(),
        inv_vars_t: inv_vars_t.len(),
        sigma_inv_m: sigma_inv_m.len(),
        u: u.len(),
        lda_t: lda_t.len(),
        lda_offset: lda_offset.len(),
        global_mean_stats: global_mean_stats.len(),
    };
    let judged = judge(opts, gmm, extractor, lda, cmvn, tables, scratch.len())?;
    fill_gmm(&judged.files.gmm, gconsts, means_invvars_t, inv_vars_t);
    fill_gaussians(&judged.files.extractor, sigma_inv_m, u, scratch);
    fill_lda(opts, &judged, cmvn, lda_t, lda_offset, global_mean_stats);
    let info = IvectorInfo {
        opts,
        dims: judged.dims,
        prior_offset: judged.files.extractor.prior_offset,
        tables,
    };
    Ok(info)
}
