//! The model's three binary files: each checked from its start to its last item, with nothing
//! written. As `DiagGmm::parse`, `IvectorExtractor::parse` and the LDA's part of
//! `IvectorInfo::open` in the Rust. Each check says that the reader's bytes stay the same ones
//! (limit: same bytes).

ghost use Rattle.std.specs.Prelude.{◌≡◌, ◌≤◌, true, false, ◌&&◌, IfOk, List, ℕ};
ghost use Rattle.std.specs.Float.{binary32, binary64};
ghost use Rattle.definition.specs.Options.{max_gauss, max_feat, max_ivector, max_columns};
ghost use Rattle.definition.specs.Reader.{times, need};
ghost use Rattle.definition.specs.Kaldi.{matrix, packed_matrix, weights_heading, gmm, rowless, extractor_heading, extractor, lda};
ghost use Rattle.kaldi.specs.Inner.KaldiIoGot.{parsed, as_read, numbers_in, matrix_in};
ghost use Rattle.kaldi.specs.Inner.KaldiFilesAnswers.{ExtractorIn, sized_as, square_as};
ghost use Rattle.kaldi.specs.Parts.{gmm_in, counted_in, extractor_in, gmm_agreeing, gmm_matrices, skipped_w, empty_w};
ghost use Rattle.kaldi.specs.Inner.KaldiFiles.{tally, counted, MeansIn, closing};

use crate::kaldi_files::parts::{Extractor, Gmm, Means};
use crate::kaldi_io::blocks::{Matrix, Numbers};
use crate::kaldi_io::reader::KaldiReader;
use crate::kaldi_io::{MAX_COLUMNS, MAX_FEAT, MAX_GAUSS, MAX_IVECTOR, MAX_SKIPPED};
use definition::{Refusal, need};

// ---- the GMM

// The token `<WEIGHTS>`, after `<GCONSTS>` and its vector if they are there.
#[tactic(auto, unfolding(loops::specs::Refusal::first_of, definition::specs::Kaldi::weights_heading))]
fn weights_heading(r: &mut KaldiReader<'_>) -> Result<(), Refusal>
    ensures value { parsed as_read result r.new.at ≡ weights_heading r.old.src.now r.old.at }
    ensures same_source { r.new.src ≡ r.old.src }
{
    let word = r.word()?;
    if word == b"<GCONSTS>".as_slice() {
        r.skip()?;
        r.token(b"<WEIGHTS>")
    } else {
        need(word == b"<WEIGHTS>".as_slice(), Refusal::BadMark)
    }
}

// The GMM, if its blocks agree in their lengths.
#[tactic(auto, unfolding(loops::specs::Refusal::first_of))]
fn agreeing<'a>(
    weights: Numbers<'a>,
    means_invvars: Matrix<'a>,
    inv_vars: Matrix<'a>,
) -> Result<Gmm<'a>, Refusal>
    requires gauss { (1 ≤ means_invvars.rows) × (means_invvars.rows ≤ max_gauss) }
    requires dim { (1 ≤ means_invvars.cols) × (means_invvars.cols ≤ max_feat) }
    ensures { (s : List ℕ) (at : ℕ) → parsed gmm_in result at
        ≡ gmm_agreeing (numbers_in binary32 weights.entry) weights.entry.count
        (matrix_in binary32 means_invvars.entry) (matrix_in binary32 inv_vars.entry) s at }
{
    need(means_invvars.rows == inv_vars.rows, Refusal::Disagree)?;
    need(means_invvars.cols == inv_vars.cols, Refusal::Disagree)?;
    need(weights.count == means_invvars.rows, Refusal::Disagree)?;
    Ok(Gmm {
        weights,
        means_invvars,
        inv_vars,
    })
}

// What stands behind the weights.
fn gmm_matrices<'a>(r: &mut KaldiReader<'a>, weights: Numbers<'a>) -> Result<Gmm<'a>, Refusal>
    ensures value { parsed gmm_in result r.new.at
        ≡ gmm_matrices (numbers_in binary32 weights.entry) r.old.src.now r.old.at }
    ensures same_source { r.new.src ≡ r.old.src }
{
    r.token(b"<MEANS_INVVARS>")?;
    let means_invvars = r.matrix::<f32>(false, MAX_GAUSS, MAX_FEAT)?;
    r.token(b"<INV_VARS>")?;
    let inv_vars = r.matrix::<f32>(true, MAX_GAUSS, MAX_FEAT)?;
    agreeing(weights, means_invvars, inv_vars)
}

/// The GMM.
#[tactic(auto, unfolding(definition::specs::Kaldi::gmm))]
pub fn check_gmm<'a>(r: &mut KaldiReader<'a>) -> Result<Gmm<'a>, Refusal>
    ensures value { parsed gmm_in result r.new.at ≡ gmm r.old.src.now r.old.at }
    ensures same_source { r.new.src ≡ r.old.src }
{
    r.binary()?;
    r.token(b"<DiagGMM>")?;
    weights_heading(r)?;
    let weights = r.vector::<f32>(true, MAX_GAUSS)?;
    gmm_matrices(r, weights)
}

// ---- the extractor

// `<w>` has no rows.
#[tactic(auto, unfolding(loops::specs::Refusal::first_of, definition::specs::Kaldi::rowless))]
fn rowless(r: &mut KaldiReader<'_>) -> Result<(), Refusal>
    ensures value { parsed as_read result r.new.at ≡ rowless r.old.src.now r.old.at }
    ensures same_source { r.new.src ≡ r.old.src }
{
    r.width(b"FM", b"DM")?;
    let rows = r.dim(0, MAX_SKIPPED)?;
    r.dim(0, MAX_SKIPPED)?;
    need(rows == 0, Refusal::Disagree)
}

// The token `<w_vec>` and its vector, and the token before the matrices M.
fn skipped_w(r: &mut KaldiReader<'_>) -> Result<(), Refusal>
    ensures value { parsed as_read result r.new.at ≡ skipped_w r.old.src.now r.old.at }
    ensures same_source { r.new.src ≡ r.old.src }
{
    r.token(b"<w_vec>")?;
    r.skip()?;
    r.token(b"<M>")
}

// The same, behind the token `<w>` and its matrix.
fn empty_w(r: &mut KaldiReader<'_>) -> Result<(), Refusal>
    ensures value { parsed as_read result r.new.at ≡ empty_w r.old.src.now r.old.at }
    ensures same_source { r.new.src ≡ r.old.src }
{
    r.token(b"<w>")?;
    rowless(r)?;
    skipped_w(r)
}

// What stands before the matrices M.
#[tactic(auto, unfolding(definition::specs::Kaldi::extractor_heading))]
fn extractor_heading(r: &mut KaldiReader<'_>) -> Result<(), Refusal>
    ensures value { parsed as_read result r.new.at ≡ extractor_heading r.old.src.now r.old.at }
    ensures same_source { r.new.src ≡ r.old.src }
{
    r.binary()?;
    r.token(b"<IvectorExtractor>")?;
    empty_w(r)
}

// `count` matrices M, and whether all have these lengths.
fn check_matrices(
    r: &mut KaldiReader<'_>,
    count: usize,
    rows: usize,
    cols: usize,
) -> Result<bool, Refusal>
    ensures value { parsed as_read result r.new.at
        ≡ tally true (sized_as rows cols)
        (times count (matrix binary64 false max_feat max_ivector) r.old.src.now r.old.at) }
    ensures same_source { r.new.src ≡ r.old.src }
{
    let mut alike = true;
    // The blocks are read off the reader: there is no list of them.
    for _ in 0..count {
        let m = r.matrix::<f64>(false, MAX_FEAT, MAX_IVECTOR)?;
        alike &= m.rows == rows;
        alike &= m.cols == cols;
    }
    Ok(alike)
}

// `count` matrices Σ⁻¹, and whether all have this dimension.
fn check_packeds(r: &mut KaldiReader<'_>, count: usize, dim: usize) -> Result<bool, Refusal>
    ensures value { parsed as_read result r.new.at
        ≡ tally true (square_as dim) (times count packed_matrix r.old.src.now r.old.at) }
    ensures same_source { r.new.src ≡ r.old.src }
{
    let mut alike = true;
    for _ in 0..count {
        let m = r.packed()?;
        alike &= m.dim == dim;
    }
    Ok(alike)
}

// The matrices M.
fn check_means<'a>(r: &mut KaldiReader<'a>) -> Result<Means<'a>, Refusal>
    ensures value { parsed (counted_in r.old.src.now) result r.new.at
        ≡ counted r.old.src.now r.old.at }
    ensures means_in { IfOk result (λ m. MeansIn r.old.src.now m.count m.rows m.cols m.alike
        m.m.at r.new.at) }
    ensures from { IfOk result (λ m. m.m.src ≡ r.old.src) }
    ensures same_source { r.new.src ≡ r.old.src }
{
    let count = r.dim(1, MAX_GAUSS)?;
    let m = *r;
    let first = r.matrix::<f64>(false, MAX_FEAT, MAX_IVECTOR)?;
    let (rows, cols) = (first.rows, first.cols);
    let alike = check_matrices(r, count - 1, rows, cols)?;
    Ok(Means {
        count,
        rows,
        cols,
        alike,
        m,
    })
}

// The prior's offset, and the last token.
#[tactic(auto, unfolding(crate::specs::Inner::KaldiFiles::closing))]
fn read_offset(r: &mut KaldiReader<'_>) -> Result<f64, Refusal>
    ensures value { parsed as_read result r.new.at ≡ closing r.old.src.now r.old.at }
    ensures same_source { r.new.src ≡ r.old.src }
{
    r.token(b"<IvectorOffset>")?;
    let offset = r.number()?;
    r.token(b"</IvectorExtractor>")?;
    Ok(offset)
}

// Whether all blocks have the lengths that they should have: `alike` of the matrices M, `square` of
// the Σ⁻¹.
#[tactic(auto, unfolding(loops::specs::Refusal::first_of))]
fn need_alike(alike: bool, square: bool) -> Result<(), Refusal>
    ensures { (s : List ℕ) (at : ℕ) → parsed as_read result at ≡ need (alike && square) 5 s at }
{
    need(alike & square, Refusal::Disagree)
}

/// The extractor.
pub fn check_extractor<'a>(r: &mut KaldiReader<'a>) -> Result<Extractor<'a>, Refusal>
    ensures value { parsed extractor_in result r.new.at ≡ extractor r.old.src.now r.old.at }
    ensures stands { IfOk result (λ e. ExtractorIn r.old.src.now e.num_gauss e.feat_dim
        e.ivector_dim e.m.at e.sigma_inv.at) }
    ensures m_source { IfOk result (λ e. e.m.src ≡ r.old.src) }
    ensures sigma_source { IfOk result (λ e. e.sigma_inv.src ≡ r.old.src) }
    ensures same_source { r.new.src ≡ r.old.src }
{
    extractor_heading(r)?;
    let means = check_means(r)?;
    r.token(b"<SigmaInv>")?;
    let sigma_inv = *r;
    let square = check_packeds(r, means.count, means.rows)?;
    let prior_offset = read_offset(r)?;
    need_alike(means.alike, square)?;
    Ok(Extractor {
        num_gauss: means.count,
        feat_dim: means.rows,
        ivector_dim: means.cols,
        m: means.m,
        sigma_inv,
        prior_offset,
    })
}

// ---- the LDA

/// The LDA's matrix.
#[tactic(auto, unfolding(definition::specs::Kaldi::lda))]
pub fn check_lda<'a>(r: &mut KaldiReader<'a>) -> Result<Matrix<'a>, Refusal>
    ensures value { parsed (matrix_in binary32) result r.new.at ≡ lda r.old.src.now r.old.at }
    ensures rows { IfOk result (λ m. (1 ≤ m.rows) × (m.rows ≤ max_feat)) }
    ensures cols { IfOk result (λ m. (1 ≤ m.cols) × (m.cols ≤ max_columns)) }
    ensures same_source { r.new.src ≡ r.old.src }
{
    r.binary()?;
    r.matrix::<f32>(false, MAX_FEAT, MAX_COLUMNS)
}
