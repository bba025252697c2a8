//! What a call that writes a model refuses (request 5), before it writes a byte: a load's numbers
//! in a load's order, then 26.

ghost use Rattle.std.specs.Prelude.{◌≡◌, true, false, ◌∷◌, [], ◌++◌, ◌*◌, ◌≤◌, map, OnOk, length};
ghost use Rattle.std.specs.Float.{binary32, binary64};
ghost use Rattle.loops.specs.Refusal.{first_of};
ghost use Rattle.definition.specs.Number.{refused_by};
ghost use Rattle.definition.specs.Options.{options_in_range};
ghost use Rattle.definition.specs.Reader.{kept};
ghost use Rattle.definition.specs.Text.{cmvn};
ghost use Rattle.writer.specs.Written.{outside, list_tests, text_tests, write_refusal};
ghost use Rattle.writer.specs.Lent.{params_in};
ghost use Rattle.writer.specs.Inner.ModelChecks.{InRange, gmm_length, extractor_length, lda_length, BaseOf, gmm_tests, extractor_tests, lda_tests};

use crate::model_bytes::{LentParams, ModelSizes};
use definition::{Dimensions, IvectorOptions, Refusal, need};
use floats::{KeepAs, Real};
use kaldi::kaldi_io::{MAX_COLUMNS, MAX_FEAT, MAX_GAUSS, MAX_IVECTOR};
use kaldi::kaldi_text::check_cmvn;
use limits::{dims_agree, options_in_range};

// ---- sizes and lists

// 4: a size from 1 to `most`.
#[tactic(auto, unfolding(loops::specs::Refusal::first_of))]
fn check_size(most: usize, n: usize) -> Result<(), Refusal>
    ensures number { refused_by result ≡ first_of (outside most n ∷ []) }
    ensures low { OnOk result (1 ≤ n) }
    ensures high { OnOk result (n ≤ most) }
{
    need((1..=most).contains(&n), Refusal::DimensionRange)
}

// `positive`, here and of a list, is the flag of the definition's `kept`.
#[tactic(auto, unfolding(definition::specs::Reader::kept))]
fn is_kept(x: f32, positive: bool) -> bool
    ensures { result ≡ kept positive x }
{
    Real::is_finite(x) && (!positive || x.is_above_zero())
}

// A list of n numbers of a table of f32.
#[tactic(auto, unfolding(loops::specs::Refusal::first_of))]
fn check_list<W: KeepAs<f32>>(xs: &[W], n: usize, positive: bool) -> Result<(), Refusal>
    ensures { refused_by result
        ≡ first_of (list_tests W.format binary32 positive n (map W.float xs.now)) }
{
    need(xs.len() == n, Refusal::Disagree)?;
    for &x in xs {
        need(is_kept(x.keep(), positive), Refusal::BadNumber)?;
    }
    Ok(())
}

// A list of n numbers of a table of f64.
#[tactic(auto, unfolding(loops::specs::Refusal::first_of))]
fn check_wide_list<W: Real>(xs: &[W], n: usize) -> Result<(), Refusal>
    ensures { refused_by result
        ≡ first_of (list_tests W.format binary64 false n (map W.float xs.now)) }
{
    need(xs.len() == n, Refusal::Disagree)?;
    for &x in xs {
        need(x.is_finite(), Refusal::BadNumber)?;
    }
    Ok(())
}

// ---- the files

fn check_gmm<W: KeepAs<f32>>(p: &LentParams<'_, W>) -> Result<(), Refusal>
    ensures { refused_by result ≡ first_of (gmm_tests W.format (params_in W.float p.now)) }
{
    let z = p.sizes;
    check_size(MAX_GAUSS, z.num_gauss)?;
    check_list(p.weights, z.num_gauss, true)?;
    check_size(MAX_FEAT, z.feat_dim)?;
    check_list(p.means_invvars, z.num_gauss * z.feat_dim, false)?;
    check_list(p.inv_vars, z.num_gauss * z.feat_dim, true)
}

// Once the GMM is checked, as `check_lda`.
fn check_extractor<W: Real>(p: &LentParams<'_, W>) -> Result<(), Refusal>
    requires { p.now.sizes.feat_dim ≤ 64 }
    ensures { refused_by result ≡ first_of (extractor_tests W.format (params_in W.float p.now)) }
{
    let z = p.sizes;
    check_size(MAX_GAUSS, z.ext_gauss)?;
    check_size(MAX_IVECTOR, z.ivector_dim)?;
    check_wide_list(p.m, z.ext_gauss * (z.feat_dim * z.ivector_dim))?;
    check_wide_list(
        p.sigma_inv,
        z.ext_gauss * (z.feat_dim * (z.feat_dim + 1) / 2),
    )?;
    need(p.prior_offset.is_finite(), Refusal::BadNumber)
}

fn check_lda<W: KeepAs<f32>>(p: &LentParams<'_, W>) -> Result<(), Refusal>
    requires { p.now.sizes.feat_dim ≤ 64 }
    ensures { refused_by result ≡ first_of (lda_tests W.format (params_in W.float p.now)) }
{
    check_size(MAX_COLUMNS, p.sizes.lda_cols)?;
    check_list(p.lda, p.sizes.feat_dim * p.sizes.lda_cols, false)
}

// The base dimension of a CMVN text.
fn base_of(text: &[u8]) -> Result<usize, Refusal>
    ensures { BaseOf (cmvn text.now 0) result }
{
    match check_cmvn(text) {
        Err(_) => Err(Refusal::CmvnForm),
        Ok(c) => Ok(c.len - 1),
    }
}

// The CMVN text, and the files against each other, once the options and the sizes are in range.
fn check_text(o: IvectorOptions, z: ModelSizes, text: &[u8]) -> Result<(), Refusal>
    requires options { options_in_range o ≡ true }
    requires sizes { InRange z }
    ensures { refused_by result ≡ first_of (text_tests o z (cmvn text.now 0)) }
{
    let base_dim = base_of(text)?;
    let dims = Dimensions {
        num_gauss: z.num_gauss,
        ext_gauss: z.ext_gauss,
        feat_dim: z.feat_dim,
        ivector_dim: z.ivector_dim,
        base_dim,
        lda_cols: z.lda_cols,
    };
    need(dims_agree(o, dims), Refusal::Disagree)
}

// The three files' lengths, at so many bytes a number.
fn gmm_length(width: usize, z: ModelSizes) -> usize
    requires few { width ≤ 8 }
    requires sizes { InRange z }
    ensures { result ≡ gmm_length width z }
{
    112 + width * (z.num_gauss + 2 * (z.num_gauss * z.feat_dim))
}

fn extractor_length(width: usize, z: ModelSizes) -> usize
    requires few { width ≤ 8 }
    requires sizes { InRange z }
    ensures { result ≡ extractor_length width z }
{
    let d = z.feat_dim;
    111 + width + z.ext_gauss * (21 + width * (d * z.ivector_dim + d * (d + 1) / 2))
}

fn lda_length(width: usize, z: ModelSizes) -> usize
    requires few { width ≤ 8 }
    requires sizes { InRange z }
    ensures { result ≡ lda_length width z }
{
    15 + width * (z.feat_dim * z.lda_cols)
}

// ---- all of it

/// What a call that writes a model refuses, in the order in which a load would meet it; an output
/// shorter than the three files comes last.
pub fn check<W: KeepAs<f32>>(
    o: IvectorOptions,
    text: &[u8],
    p: &LentParams<'_, W>,
    room: usize,
) -> Result<(), Refusal>
    ensures { refused_by result ≡ write_refusal W.format o text.now (params_in W.float p.now) room }
{
    let z = p.sizes;
    need(options_in_range(o), Refusal::OptionRange)?;
    check_gmm(p)?;
    check_extractor(p)?;
    check_lda(p)?;
    let width = W::BYTES;
    let total = gmm_length(width, z) + extractor_length(width, z) + lda_length(width, z);
    check_text(o, z, text)?;
    need(total <= room, Refusal::ShortOutput)
}
