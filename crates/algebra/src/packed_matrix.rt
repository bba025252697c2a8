//! A symmetric matrix as a model has it, packed: the rows of its lower triangle one after the
//! other. It is laid out square for its products, which are sums of rows. The inner product.

ghost use Rattle.std.specs.Prelude.{◌≡◌, ◌+◌, ◌*◌, ◌<◌, ◌≤◌, length, min};
ghost use Rattle.loops.specs.Lists.{build};
ghost use Rattle.loops.specs.Inner.{fill};
ghost use Rattle.floats.specs.Operators.{◌+₆₄◌, ◌*₆₄◌, zero₆₄, at, sum₆₄};
ghost use Rattle.definition.specs.Kaldi.{triangle};
ghost use Rattle.definition.specs.Model.{packed};
ghost use Rattle.definition.specs.Solve.{dot as dot_of};
ghost use Rattle.algebra.specs.Inner.PackedMatrix.{table_row, square_of};

use crate::basics::add_scaled;

/// Where element (i, j) of a packed matrix stands.
pub fn packed_index(i: usize, j: usize) -> usize
    requires { (i < 65536) × (j < 65536) }
    ensures { result ≡ packed i j }
{
    if i >= j {
        i * (i + 1) / 2 + j
    } else {
        j * (j + 1) / 2 + i
    }
}

/// x into y. By index: the library's copy would call `memmove`, which the archive asks of no host.
#[tactic(auto, using(loops::proofs::Fill::fills))]
pub(crate) fn copy(x: &[f64], y: &mut [f64])
    requires { length y.old ≡ length x.now }
    ensures { y.new ≡ x.now }
{
    for i in 0..x.len() {
        y[i] = x[i];
    }
}

/// Column i of the matrix: before the diagonal it is row i, which begins at `start`; below, each
/// element stands a row further on. By index there: the places lie ever further apart.
pub fn column(a: &[f64], start: usize, i: usize, out: &mut [f64])
    requires { (start ≡ triangle i) × (i < length out.old) × (length out.old ≤ 65536)
        × (triangle (length out.old) ≤ length a.now) }
    ensures { out.new ≡ build (length out.old) (λ j. at a.now (packed j i)) }
{
    let diagonal = start + i;
    copy(&a[start..diagonal], &mut out[..i]);
    let mut place = diagonal;
    for j in i..out.len() {
        out[j] = a[place];
        place += j + 1;
    }
}

/// A packed matrix of n rows.
#[derive(Clone, Copy)]
pub struct Symmetric<'a> {
    /// The lower triangle, row after row; more may stand behind it.
    pub cells: &'a [f64],
    pub n: usize,
    pub ghost fits: { triangle n ≤ length cells.now },
}

impl Symmetric<'_> {
    /// The matrix laid out square, row after row.
    pub fn lay_out(self, square: &mut [f64])
        requires few { self.n ≤ 65536 }
        requires room { length square.old ≡ self.n * self.n }
        ensures { square.new ≡ square_of self.entry.n self.entry.cells.now }
    {
        let n = self.n;
        let mut start = 0;
        // By index: the matrix may have no rows (limit: chunks).
        for i in 0..n {
            let from = i * n;
            let end = from + n;
            column(self.cells, start, i, &mut square[from..end]);
            start += i + 1;
        }
    }
}

// Adds four rows, each times its number, one after the other. By index (limit: zip).
#[tactic(auto, using(loops::proofs::Fill::fills))]
fn add_four(
    r0: &[f64],
    r1: &[f64],
    r2: &[f64],
    r3: &[f64],
    v0: f64,
    v1: f64,
    v2: f64,
    v3: f64,
    out: &mut [f64],
)
    requires { (length r0.now ≡ length out.old) × (length r1.now ≡ length out.old)
        × (length r2.now ≡ length out.old) × (length r3.now ≡ length out.old) }
    ensures { out.new ≡ fill (length out.old)
        (λ c. at out.old c +₆₄ at r0.now c *₆₄ v0 +₆₄ at r1.now c *₆₄ v1 +₆₄ at r2.now c *₆₄ v2
        +₆₄ at r3.now c *₆₄ v3) out.old }
{
    for c in 0..out.len() {
        out[c] = out[c] + r0[c] * v0 + r1[c] * v1 + r2[c] * v2 + r3[c] * v3;
    }
}

// The same, from 0.0 on: what stood in the sums is not read.
#[tactic(auto, using(loops::proofs::Fill::fills))]
fn set_four(
    r0: &[f64],
    r1: &[f64],
    r2: &[f64],
    r3: &[f64],
    v0: f64,
    v1: f64,
    v2: f64,
    v3: f64,
    out: &mut [f64],
)
    requires { (length r0.now ≡ length out.old) × (length r1.now ≡ length out.old)
        × (length r2.now ≡ length out.old) × (length r3.now ≡ length out.old) }
    ensures { out.new ≡ fill (length out.old)
        (λ c. zero₆₄ +₆₄ at r0.now c *₆₄ v0 +₆₄ at r1.now c *₆₄ v1 +₆₄ at r2.now c *₆₄ v2
        +₆₄ at r3.now c *₆₄ v3) out.old }
{
    for c in 0..out.len() {
        out[c] = 0.0 + r0[c] * v0 + r1[c] * v1 + r2[c] * v2 + r3[c] * v3;
    }
}

// The first w numbers of row k of a table whose rows stand s apart.
fn row_at(table: &[f64], s: usize, w: usize, k: usize) -> &[f64]
    requires { k * s + w ≤ length table.now }
    ensures { (result.now ≡ table_row s w table.now k) × (length result.now ≡ w) }
{
    let start = k * s;
    let end = start + w;
    &table[start..end]
}

// The sums over the first four rows, or, where x has fewer numbers, over none; the answer is over
// how many. The rows stand s apart.
fn begin_sums(rows: &[f64], s: usize, x: &[f64], out: &mut [f64]) -> usize
    requires apart { length out.old ≤ s }
    requires rows_in { length x.now * s ≤ length rows.now }
    ensures few { result ≤ length x.now }
    ensures sums { out.new ≡ build (length out.old)
        (λ c. sum₆₄ zero₆₄ result (λ a. at rows.now (a * s + c) *₆₄ at x.now a)) }
{
    let w = out.len();
    if x.len() < 4 {
        out.fill(0.0);
        return 0;
    }
    let r0 = row_at(rows, s, w, 0);
    let r1 = row_at(rows, s, w, 1);
    let r2 = row_at(rows, s, w, 2);
    let r3 = row_at(rows, s, w, 3);
    set_four(r0, r1, r2, r3, x[0], x[1], x[2], x[3], out);
    4
}

/// Adds up the rows, which stand s apart, each times its element of x: of each row as many numbers
/// as there are sums. Four rows in a pass over the sums, and each sum in the order of the rows. Of
/// a matrix that is laid out square, and of a vector, that is their product.
pub fn weighted_rows(rows: &[f64], s: usize, x: &[f64], out: &mut [f64])
    requires apart { length out.old ≤ s }
    requires rows_in { length x.now * s ≤ length rows.now }
    ensures { out.new ≡ build (length out.old)
        (λ c. sum₆₄ zero₆₄ (length x.now) (λ a. at rows.now (a * s + c) *₆₄ at x.now a)) }
{
    let w = out.len();
    let mut k = begin_sums(rows, s, x, out);
    // No `for`: four at a time, and the last fewer than four rows begin where k is.
    while x.len() - k >= 4 {
        let r0 = row_at(rows, s, w, k);
        let r1 = row_at(rows, s, w, k + 1);
        let r2 = row_at(rows, s, w, k + 2);
        let r3 = row_at(rows, s, w, k + 3);
        add_four(r0, r1, r2, r3, x[k], x[k + 1], x[k + 2], x[k + 3], out);
        k += 4;
    }
    // By index: a place is that of a number and of a row.
    for i in k..x.len() {
        let r = row_at(rows, s, w, i);
        add_scaled(x[i], r, out);
    }
}

/// The inner product, of as many numbers as the shorter vector has.
pub fn dot(a: &[f64], b: &[f64]) -> f64
    ensures { result ≡ dot_of (min (length a.now) (length b.now)) a.now b.now }
{
    a.iter().zip(b).map(|(x, y)| x * y).sum()
}
