//! A model written back (request 5): its three files, one after the other, from parameters that all
//! are f32, or all f64. Everything is judged before a byte is written.

ghost use Rattle.std.specs.Prelude.{◌≡◌, true, ◌∷◌, [], ◌*◌, ◌≤◌, map, length};
ghost use Rattle.std.specs.Float.Ieee.Scale.{finite};
ghost use Rattle.definition.specs.Kaldi.{triangle};
ghost use Rattle.writer.specs.Wrote.{HasRoom, Wrote};
ghost use Rattle.writer.specs.Written.{numbers_bytes, size_bytes, vector_bytes, matrix_bytes, packed_bytes, gmm_bytes, extractor_bytes, lda_bytes, written, written_out};
ghost use Rattle.writer.specs.Lent.{AllFinite, params_in, written_of};
ghost use Rattle.writer.specs.Pieces.{m_blocks, sigma_blocks};

use crate::byte_writer::Writer;
pub use crate::model_bytes::written_answer;
use crate::model_bytes::{FileLengths, LentParams};
use crate::model_checks;
use definition::{IvectorOptions, Refusal};
use floats::{KeepAs, Real};

// ---- sizes and numbers

// A size: the byte 4, and its four bytes, the first of eight.
fn size(w: &mut Writer<'_>, n: usize)
    requires { HasRoom (size_bytes n) w.old }
    ensures { Wrote (size_bytes n) w.old w.new }
{
    w.bytes(b"\x04");
    let bytes = n.to_le_bytes();
    w.bytes(&bytes[..4]);
}

// A number that was judged, so that no test is left: the first bytes of its pattern's eight, as many
// as its width has.
fn number<W: Real>(w: &mut Writer<'_>, x: W)
    requires room { HasRoom (numbers_bytes W.format (W.float x ∷ [])) w.old }
    requires judged { finite (W.float x) ≡ true }
    ensures { Wrote (numbers_bytes W.format (W.float x ∷ [])) w.old w.new }
{
    let bytes = x.finite_pattern().to_le_bytes();
    w.bytes(&bytes[..W::BYTES]);
}

fn numbers<W: Real>(w: &mut Writer<'_>, xs: &[W])
    requires room { HasRoom (numbers_bytes W.format (map W.float xs.now)) w.old }
    requires judged { AllFinite W.float xs.now }
    ensures { Wrote (numbers_bytes W.format (map W.float xs.now)) w.old w.new }
{
    for &x in xs {
        number(w, x);
    }
}

// ---- blocks: a tag, sizes, numbers

fn vector<W: Real>(w: &mut Writer<'_>, n: usize, xs: &[W])
    requires room { HasRoom (vector_bytes W.format n (map W.float xs.now)) w.old }
    requires judged { AllFinite W.float xs.now }
    ensures { Wrote (vector_bytes W.format n (map W.float xs.now)) w.old w.new }
{
    w.bytes(&[W::MARK, b'V', b' ']);
    size(w, n);
    numbers(w, xs);
}

fn matrix<W: Real>(w: &mut Writer<'_>, rows: usize, cols: usize, xs: &[W])
    requires room { HasRoom (matrix_bytes W.format rows cols (map W.float xs.now)) w.old }
    requires judged { AllFinite W.float xs.now }
    ensures { Wrote (matrix_bytes W.format rows cols (map W.float xs.now)) w.old w.new }
{
    w.bytes(&[W::MARK, b'M', b' ']);
    size(w, rows);
    size(w, cols);
    numbers(w, xs);
}

// The lower triangle of a symmetric matrix of n rows.
fn packed<W: Real>(w: &mut Writer<'_>, n: usize, xs: &[W])
    requires room { HasRoom (packed_bytes W.format n (map W.float xs.now)) w.old }
    requires judged { AllFinite W.float xs.now }
    ensures { Wrote (packed_bytes W.format n (map W.float xs.now)) w.old w.new }
{
    w.bytes(&[W::MARK, b'P', b' ']);
    size(w, n);
    numbers(w, xs);
}

// `<M>`, and below `<SigmaInv>`: a block for each of `count` Gaussians.
fn matrices<W: Real>(w: &mut Writer<'_>, count: usize, rows: usize, cols: usize, xs: &[W])
    requires rows { rows ≤ 64 }
    requires cols { cols ≤ 128 }
    requires long { length xs.now ≡ count * (rows * cols) }
    requires room { HasRoom (m_blocks W.format count rows cols (map W.float xs.now)) w.old }
    requires judged { AllFinite W.float xs.now }
    ensures { Wrote (m_blocks W.format count rows cols (map W.float xs.now)) w.old w.new }
{
    let n = rows * cols;
    // By index, here and below (limit: parts).
    for i in 0..count {
        matrix(w, rows, cols, &xs[i * n..i * n + n]);
    }
}

fn packeds<W: Real>(w: &mut Writer<'_>, count: usize, rows: usize, xs: &[W])
    requires rows { rows ≤ 64 }
    requires long { length xs.now ≡ count * triangle rows }
    requires room { HasRoom (sigma_blocks W.format count rows (map W.float xs.now)) w.old }
    requires judged { AllFinite W.float xs.now }
    ensures { Wrote (sigma_blocks W.format count rows (map W.float xs.now)) w.old w.new }
{
    let n = rows * (rows + 1) / 2;
    for i in 0..count {
        packed(w, rows, &xs[i * n..i * n + n]);
    }
}

// ---- the files

#[tactic(auto, unfolding(crate::specs::Written::gmm_bytes, loops::specs::Lists::all_of))]
fn gmm<W: Real>(w: &mut Writer<'_>, p: &LentParams<'_, W>)
    requires room { HasRoom (gmm_bytes W.format (params_in W.float p.now)) w.old }
    requires weights { AllFinite W.float p.now.weights.now }
    requires means_invvars { AllFinite W.float p.now.means_invvars.now }
    requires inv_vars { AllFinite W.float p.now.inv_vars.now }
    ensures { Wrote (gmm_bytes W.format (params_in W.float p.now)) w.old w.new }
{
    let z = p.sizes;
    w.bytes(b"\0B<DiagGMM> <GCONSTS> ");
    vector::<W>(w, 0, &[]);
    w.bytes(b"<WEIGHTS> ");
    vector(w, z.num_gauss, p.weights);
    w.bytes(b"<MEANS_INVVARS> ");
    matrix(w, z.num_gauss, z.feat_dim, p.means_invvars);
    w.bytes(b"<INV_VARS> ");
    matrix(w, z.num_gauss, z.feat_dim, p.inv_vars);
    w.bytes(b"</DiagGMM> ");
}

#[tactic(auto, unfolding(crate::specs::Written::extractor_bytes, loops::specs::Lists::all_of))]
fn extractor<W: Real>(w: &mut Writer<'_>, p: &LentParams<'_, W>)
    requires feat { p.now.sizes.feat_dim ≤ 64 }
    requires ivector { p.now.sizes.ivector_dim ≤ 128 }
    requires m { length p.now.m.now
        ≡ p.now.sizes.ext_gauss * (p.now.sizes.feat_dim * p.now.sizes.ivector_dim) }
    requires sigma_inv { length p.now.sigma_inv.now
        ≡ p.now.sizes.ext_gauss * triangle p.now.sizes.feat_dim }
    requires room { HasRoom (extractor_bytes W.format (params_in W.float p.now)) w.old }
    requires m_judged { AllFinite W.float p.now.m.now }
    requires sigma_inv_judged { AllFinite W.float p.now.sigma_inv.now }
    requires offset_judged { finite (W.float p.now.prior_offset) ≡ true }
    ensures { Wrote (extractor_bytes W.format (params_in W.float p.now)) w.old w.new }
{
    let z = p.sizes;
    w.bytes(b"\0B<IvectorExtractor> <w> ");
    matrix::<W>(w, 0, 0, &[]);
    w.bytes(b"<w_vec> ");
    vector::<W>(w, 0, &[]);
    w.bytes(b"<M> ");
    size(w, z.ext_gauss);
    matrices(w, z.ext_gauss, z.feat_dim, z.ivector_dim, p.m);
    w.bytes(b"<SigmaInv> ");
    packeds(w, z.ext_gauss, z.feat_dim, p.sigma_inv);
    w.bytes(b"<IvectorOffset> ");
    w.bytes(&[W::BYTES as u8]);
    number(w, p.prior_offset);
    w.bytes(b"</IvectorExtractor> ");
}

#[tactic(auto, unfolding(crate::specs::Written::lda_bytes))]
fn lda<W: Real>(w: &mut Writer<'_>, p: &LentParams<'_, W>)
    requires room { HasRoom (lda_bytes W.format (params_in W.float p.now)) w.old }
    requires judged { AllFinite W.float p.now.lda.now }
    ensures { Wrote (lda_bytes W.format (params_in W.float p.now)) w.old w.new }
{
    w.bytes(b"\0B");
    matrix(w, p.sizes.feat_dim, p.sizes.lda_cols, p.lda);
}

/// The GMM's, the extractor's and the LDA's file, one after the other, at the front of `out`; the
/// answer has their lengths. A refusal writes nothing.
pub fn write<W: KeepAs<f32>>(
    opts: IvectorOptions,
    cmvn: &[u8],
    params: &LentParams<'_, W>,
    out: &mut [u8],
) -> Result<FileLengths, Refusal>
    ensures answer { written_of result
        ≡ written W.format opts cmvn.now (params_in W.float params.now) (length out.old) }
    ensures bytes { out.new ≡ written_out W.format opts cmvn.now
        (params_in W.float params.now) out.old }
{
    model_checks::check(opts, cmvn, params, out.len())?;
    let mut files = Writer { out, at: 0 };
    gmm(&mut files, params);
    let gmm_end = files.at;
    extractor(&mut files, params);
    let extractor_end = files.at;
    lda(&mut files, params);
    Ok(FileLengths {
        gmm: gmm_end,
        extractor: extractor_end - gmm_end,
        lda: files.at - extractor_end,
    })
}
