//! The tables that a model keeps, of files that were checked: what `DiagGmm::parse`,
//! `IvectorExtractor::parse` and the LDA's part of `IvectorInfo::open` in the Rust make of the
//! files' numbers. A table goes to the front of its room, and the places past it keep their values.

ghost use Rattle.std.specs.Prelude.{◌≡◌, ◌+◌, ◌*◌, ◌<◌, ◌≤◌, false, length};
ghost use Rattle.std.specs.Float.{binary32, binary64};
ghost use Rattle.loops.specs.Lists.{build, over};
ghost use Rattle.floats.specs.Operators.{◌-₆₄◌, ◌*₆₄◌, ◌/₆₄◌, zero₆₄, half₆₄, at, sum₆₄};
ghost use Rattle.floats.specs.Ln.{ln_of};
ghost use Rattle.definition.specs.Options.{max_feat, max_ivector};
ghost use Rattle.definition.specs.Kaldi.{triangle, matrix, packed_matrix};
ghost use Rattle.definition.specs.Text.{line};
ghost use Rattle.definition.specs.Model.{gconst as gconst_of, transposed, packed, sigma_inv_m as sigma_inv_m_of, quadratic_term as quadratic_term_of, gconst_offset, lda_offset_of};
ghost use Rattle.kaldi.specs.Inner.KaldiIoAnswers.{place_of};
ghost use Rattle.kaldi.specs.Widths.{format_of};
ghost use Rattle.kaldi.specs.Inner.KaldiIoGot.{numbers_in, matrix_in};
ghost use Rattle.kaldi.specs.Inner.KaldiFilesAnswers.{ExtractorIn};
ghost use Rattle.kaldi.specs.Parts.{gmm_in, extractor_in};
ghost use Rattle.kaldi.specs.Inner.KaldiTextAnswers.{cells, RowIn};
ghost use Rattle.model.specs.Inner.IvectorTables.{MAt, SigmaAt, sigma_inv_ms, quadratic_terms};
ghost use Rattle.model.specs.Next.{m_next, sigma_next, Behind};

use algebra::packed_matrix::{column, weighted_rows};
use floats::Real;
use kaldi::kaldi_files::parts::{Extractor, Gmm};
use kaldi::kaldi_io::blocks::{Matrix, Packed, kept_at};
use kaldi::kaldi_io::reader::KaldiReader;
use kaldi::kaldi_io::widths::Width;
use kaldi::kaldi_io::{MAX_FEAT, MAX_IVECTOR};
use kaldi::kaldi_text::fill_row;

// ---- the GMM

// What the dimension adds to each constant: 6.28.. is 2 pi.
fn gconst_offset(d: usize) -> f64
    ensures { result ≡ gconst_offset d }
{
    -0.5 * floats::ln(6.283185307179586) * std::num::nearest_u64_to_f64(d as u64)
}

// What one dimension of a Gaussian adds to its constant.
fn gconst_term(m: f32, v: f32) -> f64
    ensures { result ≡ half₆₄ *₆₄ ln_of v -₆₄ half₆₄ *₆₄ m *₆₄ m /₆₄ v }
{
    let miv = m.widen();
    let iv = v.widen();
    0.5 * floats::ln(iv) - 0.5 * miv * miv / iv
}

// The constant of Gaussian g.
fn gconst(gmm: &Gmm<'_>, offset: f64, g: usize) -> f32
    requires offset_is { offset ≡ gconst_offset gmm.now.inv_vars.cols }
    requires inside { g < gmm.now.weights.count }
    ensures { result ≡ gconst_of (gmm_in gmm.now) g }
{
    let d = gmm.inv_vars.cols;
    let start = g * d;
    let weight: f32 = gmm.weights.get(g);
    let mut gc = floats::ln(weight.widen()) + offset;
    // By index: row g of either block, whose numbers are still in the file's bytes.
    for k in 0..d {
        let m = gmm.means_invvars.numbers.get(start + k);
        let v = gmm.inv_vars.numbers.get(start + k);
        gc += gconst_term(m, v);
    }
    floats::narrow(gc)
}

/// The GMM's constants.
pub fn fill_gconsts(gmm: &Gmm<'_>, out: &mut [f32])
    requires room { gmm.now.weights.count ≤ length out.old }
    ensures { out.new ≡ over (build gmm.now.inv_vars.rows (gconst_of (gmm_in gmm.now))) out.old }
{
    let offset = gconst_offset(gmm.inv_vars.cols);
    let (front, _) = out.split_at_mut(gmm.weights.count);
    for (g, x) in front.iter_mut().enumerate() {
        *x = gconst(gmm, offset, g);
    }
}

// ---- matrices whose columns become rows

// Column c of a matrix whose numbers are written at this width, into a room that it fills.
fn fill_column<W: Real>(block: &Matrix<'_>, c: usize, out: &mut [f32])
    requires written { W.format ≡ format_of block.now.numbers.width }
    requires inside { c < block.now.cols }
    requires room { length out.old ≡ block.now.rows }
    ensures { out.new ≡ build block.now.rows
        (λ r. at (matrix_in binary32 block.now).nums (r * block.now.cols + c)) }
{
    let (bytes, n, cols) = (block.numbers.bytes, block.numbers.count, block.cols);
    for (r, x) in out.iter_mut().enumerate() {
        *x = kept_at::<W, f32>(bytes, r * cols + c, n);
    }
}

// The first `kept` columns. By index: the matrix may have no rows (limit: chunks).
fn fill_columns<W: Real>(block: &Matrix<'_>, kept: usize, out: &mut [f32])
    requires written { W.format ≡ format_of block.now.numbers.width }
    requires kept_in { kept ≤ block.now.cols }
    requires room { kept * block.now.rows ≤ length out.old }
    ensures { out.new ≡ over (transposed kept (matrix_in binary32 block.now)) out.old }
{
    for c in 0..kept {
        let start = c * block.rows;
        let end = start + block.rows;
        fill_column::<W>(block, c, &mut out[start..end]);
    }
}

/// The first `kept` columns as rows.
pub fn fill_transposed(block: &Matrix<'_>, kept: usize, out: &mut [f32])
    requires kept_in { kept ≤ block.now.cols }
    requires room { kept * block.now.rows ≤ length out.old }
    ensures { out.new ≡ over (transposed kept (matrix_in binary32 block.now)) out.old }
{
    match block.numbers.width {
        Width::Single => fill_columns::<f32>(block, kept, out),
        Width::Double => fill_columns::<f64>(block, kept, out),
    }
}

// ---- the LDA's offset

// The column after the spliced ones, or zeros where there is none.
fn offset(block: &Matrix<'_>, spliced: usize, out: &mut [f32])
    requires { length out.old ≡ block.now.rows }
    ensures { out.new ≡ build block.now.rows
        (lda_offset_of spliced (matrix_in binary32 block.now)) }
{
    if block.cols <= spliced {
        out.fill(0.0);
        return;
    }
    match block.numbers.width {
        Width::Single => fill_column::<f32>(block, spliced, out),
        Width::Double => fill_column::<f64>(block, spliced, out),
    }
}

/// The LDA's offset.
#[tactic(auto, using(crate::proofs::Rows::front_over))]
pub fn fill_offset(block: &Matrix<'_>, spliced: usize, out: &mut [f32])
    requires { block.now.rows ≤ length out.old }
    ensures { out.new ≡ over (build block.now.rows
        (lda_offset_of spliced (matrix_in binary32 block.now))) out.old }
{
    let (front, _) = out.split_at_mut(block.rows);
    offset(block, spliced, front);
}

// ---- the CMVN text's first row

/// The row, of `len` numbers; the places past them keep their values.
#[tactic(auto, using(crate::proofs::Rows::front_over))]
pub fn fill_global(s: &[u8], from: usize, len: usize, out: &mut [f64])
    requires row_in { RowIn s.now len from }
    requires len_in_bounds { len ≤ length out.old }
    ensures { out.new ≡ over (cells (line s.now from)) out.old }
{
    let (front, _) = out.split_at_mut(len);
    fill_row(s, from, front);
}

// ---- the extractor

// One Gaussian's Σ⁻¹, packed, and its M of d rows of n.
#[derive(Clone, Copy)]
struct Gaussian<'a> {
    sigma_inv: &'a [f64],
    m: &'a [f64],
    d: usize,
    n: usize,
    ghost few: { (d ≤ 64) × (n ≤ 128) },
    ghost sigma_whole: { length sigma_inv.now ≡ triangle d },
    ghost m_whole: { length m.now ≡ d * n },
}

// Column p of a table whose rows stand s apart, of as many rows as x has places.
fn column_of(table: &[f64], s: usize, p: usize, x: &mut [f64])
    requires { (p < s) × (length x.old * s ≤ length table.now) }
    ensures { x.new ≡ build (length x.old) (λ b. at table.now (b * s + p)) }
{
    for (b, y) in x.iter_mut().enumerate() {
        *y = table[b * s + p];
    }
}

impl Gaussian<'_> {
    // Row a of Σ⁻¹ M: the rows of M, each times its element of Σ⁻¹, added up from the first to the
    // last. x is room for column a of Σ⁻¹, which is row a.
    fn sigma_inv_m_row(&self, a: usize, x: &mut [f64], out: &mut [f64])
        requires { (a < self.now.d) × (length x.old ≡ self.now.d) × (length out.old ≡ self.now.n) }
        ensures { out.new ≡ build self.now.n (λ c. sum₆₄ zero₆₄ self.now.d
            (λ b. at self.now.sigma_inv.now (packed a b) *₆₄ at self.now.m.now (b * self.now.n + c))) }
    {
        let start = a * (a + 1) / 2;
        column(self.sigma_inv, start, a, x);
        weighted_rows(self.m, self.n, x, out);
    }

    // Σ⁻¹ M, into a room that it fills. By index: M may have no columns (limit: chunks).
    fn sigma_inv_m(&self, out: &mut [f64])
        requires { length out.old ≡ self.now.d * self.now.n }
        ensures { out.new ≡ sigma_inv_m_of self.now.d self.now.n self.now.sigma_inv.now
            self.now.m.now }
    {
        let mut room = [0.0f64; 64];
        let (x, _) = room.split_at_mut(self.d);
        for a in 0..self.d {
            let start = a * self.n;
            let end = start + self.n;
            self.sigma_inv_m_row(a, x, &mut out[start..end]);
        }
    }

    // Row p of Mᵗ Σ⁻¹ M, up to the diagonal: the rows of Σ⁻¹ M, each times its element of column p
    // of M, added up from the first to the last. x is room for that column.
    fn quadratic_row(&self, sigma_inv_m: &[f64], p: usize, x: &mut [f64], out: &mut [f64])
        requires { (p < self.now.n) × (length sigma_inv_m.now ≡ self.now.d * self.now.n)
            × (length x.old ≡ self.now.d) × (length out.old ≡ p + 1) }
        ensures { out.new ≡ build (p + 1)
            (λ q. sum₆₄ zero₆₄ self.now.d
            (λ b. at self.now.m.now (b * self.now.n + p)
            *₆₄ at sigma_inv_m.now (b * self.now.n + q))) }
    {
        column_of(self.m, self.n, p, x);
        weighted_rows(sigma_inv_m, self.n, x, out);
    }

    // Mᵗ Σ⁻¹ M, packed, into a room that it fills: each row is one place longer than the row before
    // it.
    fn quadratic_term(&self, sigma_inv_m: &[f64], out: &mut [f64])
        requires { (length sigma_inv_m.now ≡ self.now.d * self.now.n)
            × (length out.old ≡ triangle self.now.n) }
        ensures { out.new ≡ quadratic_term_of self.now.d self.now.n self.now.m.now sigma_inv_m.now }
    {
        let mut room = [0.0f64; 64];
        let (x, _) = room.split_at_mut(self.d);
        let mut start = 0;
        for p in 0..self.n {
            let end = start + p + 1;
            self.quadratic_row(sigma_inv_m, p, x, &mut out[start..end]);
            start = end;
        }
    }
}

// The two tables of one Gaussian. Its numbers are read into scratch: Σ⁻¹, and M behind it.
fn fill_tables(
    m_block: &Matrix<'_>,
    sigma_block: &Packed<'_>,
    scratch: &mut [f64],
    sigma_inv_m: &mut [f64],
    u: &mut [f64],
)
    requires alike { sigma_block.now.dim ≡ m_block.now.rows }
    requires few { (m_block.now.rows ≤ 64) × (m_block.now.cols ≤ 128) }
    requires scratch_room { triangle m_block.now.rows + m_block.now.rows * m_block.now.cols
        ≤ length scratch.old }
    requires table_rooms { (length sigma_inv_m.old ≡ m_block.now.rows * m_block.now.cols)
        × (length u.old ≡ triangle m_block.now.cols) }
    ensures sigma_inv_m_after { sigma_inv_m.new ≡ sigma_inv_m_of m_block.now.rows m_block.now.cols
        (numbers_in binary64 sigma_block.now.numbers) (numbers_in binary64 m_block.now.numbers) }
    ensures u_after { u.new ≡ quadratic_term_of m_block.now.rows m_block.now.cols
        (numbers_in binary64 m_block.now.numbers)
        (sigma_inv_m_of m_block.now.rows m_block.now.cols
        (numbers_in binary64 sigma_block.now.numbers) (numbers_in binary64 m_block.now.numbers)) }
{
    let (first, rest) = scratch.split_at_mut(sigma_block.numbers.count);
    let (second, _) = rest.split_at_mut(m_block.numbers.count);
    sigma_block.numbers.fill(first);
    m_block.numbers.fill(second);
    let gaussian = Gaussian {
        sigma_inv: first,
        m: second,
        d: m_block.rows,
        n: m_block.cols,
    };
    gaussian.sigma_inv_m(sigma_inv_m);
    gaussian.quadratic_term(sigma_inv_m, u);
}

// The Gaussian whose blocks are next, by an extractor whose readers are at them: its tables. The
// readers go behind its blocks.
fn fill_gaussian(
    next: &mut Extractor<'_>,
    scratch: &mut [f64],
    sigma_inv_m: &mut [f64],
    u: &mut [f64],
)
    requires m_stands { MAt next.old.feat_dim next.old.ivector_dim next.old.m.src.now
        next.old.m.at }
    requires sigma_stands { SigmaAt next.old.feat_dim next.old.sigma_inv.src.now
        next.old.sigma_inv.at }
    requires few { (next.old.feat_dim ≤ 64) × (next.old.ivector_dim ≤ 128) }
    requires scratch_room { triangle next.old.feat_dim + next.old.feat_dim * next.old.ivector_dim
        ≤ length scratch.old }
    requires table_rooms { (length sigma_inv_m.old ≡ next.old.feat_dim * next.old.ivector_dim)
        × (length u.old ≡ triangle next.old.ivector_dim) }
    ensures behind { Behind next.old next.new }
    ensures sigma_inv_m_after { sigma_inv_m.new ≡ sigma_inv_m_of next.old.feat_dim
        next.old.ivector_dim (sigma_next next.old) (m_next next.old) }
    ensures u_after { u.new ≡ quadratic_term_of next.old.feat_dim next.old.ivector_dim
        (m_next next.old)
        (sigma_inv_m_of next.old.feat_dim next.old.ivector_dim (sigma_next next.old)
        (m_next next.old)) }
{
    let m_block = next.m.matrix::<f64>(false, MAX_FEAT, MAX_IVECTOR);
    let sigma_block = next.sigma_inv.packed();
    // neither is refused: they were checked
    if let (Ok(m_block), Ok(sigma_block)) = (m_block, sigma_block) {
        fill_tables(&m_block, &sigma_block, scratch, sigma_inv_m, u);
    }
}

/// Σ⁻¹ M and Mᵗ Σ⁻¹ M of all Gaussians, one after the other. By index: two rooms are written in
/// step (limit: zip).
pub fn fill_gaussians(
    e: &Extractor<'_>,
    sigma_inv_m: &mut [f64],
    u: &mut [f64],
    scratch: &mut [f64],
)
    requires stands { ExtractorIn e.now.m.src.now e.now.num_gauss e.now.feat_dim e.now.ivector_dim
        e.now.m.at e.now.sigma_inv.at }
    requires same_source { e.now.sigma_inv.src.now ≡ e.now.m.src.now }
    requires sigma_inv_m_room { e.now.num_gauss * (e.now.feat_dim * e.now.ivector_dim)
        ≤ length sigma_inv_m.old }
    requires u_room { e.now.num_gauss * triangle e.now.ivector_dim ≤ length u.old }
    requires scratch_room { triangle e.now.feat_dim + e.now.feat_dim * e.now.ivector_dim
        ≤ length scratch.old }
    ensures sigma_inv_m_after { sigma_inv_m.new ≡ over
        (sigma_inv_ms (extractor_in e.now)) sigma_inv_m.old }
    ensures u_after { u.new ≡ over (quadratic_terms (extractor_in e.now)) u.old }
{
    let size = e.feat_dim * e.ivector_dim;
    let half = e.ivector_dim * (e.ivector_dim + 1) / 2;
    let mut next = *e;
    for i in 0..e.num_gauss {
        let from = i * size;
        let to = from + size;
        let start = i * half;
        let end = start + half;
        fill_gaussian(
            &mut next,
            scratch,
            &mut sigma_inv_m[from..to],
            &mut u[start..end],
        );
    }
}
