//! The solver behind `get_ivector`: A x = b by the conjugate gradient, or by Cholesky's factor
//! where that fails. A is packed, of n rows; x, b, r (the residual A x - b), p (the direction) and
//! ap (A p) have n numbers each, and are slices of their own: one is read while another is written
//! (limit: alike). The loops over rows, columns and factors of A go by index: each reads places of
//! the slice that it writes, or a column, which is no slice.

ghost use Rattle.std.specs.Prelude.{◌≡◌, List, ◌+◌, ◌*◌, ◌<◌, ◌≤◌, min, ltb, Float, length, if◌then◌else◌};
ghost use Rattle.std.specs.Float.Ieee.{neg};
ghost use Rattle.loops.specs.Loop.{leave, final};
ghost use Rattle.loops.specs.Inner.{done};
ghost use Rattle.loops.specs.Lists.{build};
ghost use Rattle.floats.specs.Operators.{◌-₆₄◌, ◌*₆₄◌, at};
ghost use Rattle.definition.specs.Solve.{dot as dot_of, less_products, factor as factor_of, forward as forward_of, backward as backward_of, sp_mat_vec, solved_or, begun, residual, turn, linear_cgd};
ghost use Rattle.algebra.specs.Inner.PackedMatrix.{square_of};
ghost use Rattle.algebra.specs.Inner.Linear.{started, stepped as stepped_of, recomputed as recomputed_of, is_far, is_last, is_worse, cgd_of, turn_end, is_on};

use crate::basics::{add_scaled, difference};
use crate::packed_matrix::{Symmetric, copy, dot, packed_index, weighted_rows};

// A number less the products of two vectors, taken off one after the other.
fn less_products(s: f64, x: &[f64], y: &[f64]) -> f64
    ensures { result ≡ less_products s (min (length x.now) (length y.now)) (at x.now) (at y.now) }
{
    x.iter().zip(y).fold(s, |s, (x, y)| s - x * y)
}

// The lower factor L of A = L Lᵗ, by rows of n, or false at the first pivot that is at most 0. The
// labelled loops, left from inside, are the form that the scope names.
fn factor(a: Symmetric<'_>, l: &mut [f64]) -> bool
    requires few { a.n ≤ 128 }
    requires room { length l.old ≡ a.n * a.n }
    ensures { done result l.new ≡ factor_of a.entry.cells.now a.entry.n }
{
    let n = a.n;
    l.fill(0.0);
    let mut has_factor = true;
    'rows: for i in 0..n {
        let row = i * n;
        let end = i + 1;
        for j in 0..end {
            let other = j * n;
            let place = packed_index(i, j);
            let s = less_products(a.cells[place], &l[row..row + j], &l[other..other + j]);
            if i == j {
                if s <= 0.0 {
                    has_factor = false;
                    break 'rows;
                }
                l[row + i] = floats::sqrt(s);
            } else {
                l[row + j] = s / l[other + j];
            }
        }
    }
    has_factor
}

// Numbers laid out square, n by n: a symmetric matrix, or a factor by rows.
#[derive(Clone, Copy)]
struct Square<'a> {
    cells: &'a [f64],
    n: usize,
    ghost fits: { n * n ≤ length cells.now },
}

impl Square<'_> {
    // L y = b, from the front.
    #[tactic(auto, using(loops::proofs::Loop::loops))]
    fn forward(self, b: &[f64], y: &mut [f64])
        requires b_long { self.n ≤ length b.now }
        requires y_long { length y.old ≡ self.n }
        ensures { y.new ≡ forward_of self.entry.n self.entry.cells.now b.now }
    {
        let n = self.n;
        y.fill(0.0);
        for i in 0..n {
            let row = i * n;
            let s = less_products(b[i], &self.cells[row..row + i], &y[..i]);
            y[i] = s / self.cells[row + i];
        }
    }

    // Lᵗ x = y, from the back. The loop inside reads a column of L, which is no slice.
    #[tactic(auto, using(loops::proofs::Loop::loops))]
    fn backward(self, y: &[f64], x: &mut [f64])
        requires y_long { length y.now ≡ self.n }
        requires x_long { length x.old ≡ self.n }
        ensures { x.new ≡ backward_of self.entry.n self.entry.cells.now y.now }
    {
        let n = self.n;
        x.fill(0.0);
        for t in 0..n {
            let i = n - 1 - t;
            let mut s = y[i];
            for k in 0..t {
                let j = i + 1 + k;
                s -= self.cells[j * n + i] * x[j];
            }
            x[i] = s / self.cells[i * n + i];
        }
    }

    // The product with a vector.
    fn times(self, x: &[f64], out: &mut [f64])
        requires x_long { length x.now ≡ self.n }
        requires out_long { length out.old ≡ self.n }
        ensures { (a : List Float) → self.entry.cells.now ≡ square_of self.entry.n a
            → out.new ≡ sp_mat_vec a self.entry.n x.now }
    {
        weighted_rows(self.cells, self.n, x, out);
    }
}

// A x = b, A laid out square.
#[derive(Clone, Copy)]
struct System<'a, 'b> {
    square: Square<'a>,
    b: &'b [f64],
    ghost b_long: { square.n ≤ length b.now },
}

/// A x = b with L and y in lent rooms. False, and x as it was, where A has no factor.
pub fn cholesky_solve(
    a: Symmetric<'_>,
    b: &[f64],
    x: &mut [f64],
    l: &mut [f64],
    y: &mut [f64],
) -> bool
    requires few { a.n ≤ 128 }
    requires b_long { a.n ≤ length b.now }
    requires x_long { length x.old ≡ a.n }
    requires l_long { length l.old ≡ a.n * a.n }
    requires y_long { length y.old ≡ a.n }
    ensures solved { x.new ≡ solved_or x.old a.entry.n b.now
        (factor_of a.entry.cells.now a.entry.n) }
    ensures has_factor { result ≡ is_on (factor_of a.entry.cells.now a.entry.n) }
{
    if factor(a, l) {
        let lower = Square { cells: l, n: a.n };
        lower.forward(b, y);
        lower.backward(y, x);
        return true;
    }
    false
}

// -p. By index, here and below (limit: zip).
#[tactic(auto, using(loops::proofs::Fill::fills))]
fn negated(p: &[f64], r: &mut [f64])
    requires { length r.old ≡ length p.now }
    ensures { r.new ≡ build (length p.now) (λ i. neg (at p.now i)) }
{
    for i in 0..p.len() {
        r[i] = -p[i];
    }
}

// beta p - r
#[tactic(auto, using(loops::proofs::Loop::loops))]
fn next_direction(beta: f64, r: &[f64], p: &mut [f64])
    requires { length r.now ≡ length p.old }
    ensures { p.new ≡ build (length p.old) (λ i. beta *₆₄ at p.old i -₆₄ at r.now i) }
{
    for i in 0..p.len() {
        p[i] = beta * p[i] - r[i];
    }
}

/// The scalars of `linear_cgd`.
#[derive(Clone, Copy)]
pub struct CgdState {
    /// The residual squared.
    pub r_cur: f64,
    /// The residual squared when it was last recomputed.
    pub r_recompute: f64,
    /// The turns taken.
    pub k: usize,
}

impl CgdState {
    fn new(r_cur: f64) -> Self
        ensures { result ≡ started r_cur }
    {
        Self {
            r_cur,
            r_recompute: r_cur,
            k: 0,
        }
    }

    // Whether a turn is left.
    fn goes_on(self, n: usize, max_iters: usize) -> bool
        requires { (n ≤ 128) × (self.k ≤ min (n + 5) max_iters) }
        ensures { result ≡ ltb self.k (min (n + 5) max_iters) }
    {
        self.k < n + 5 && self.k != max_iters
    }

    fn stepped(mut self, r_next: f64) -> Self
        requires { self.k < 200 }
        ensures { result ≡ stepped_of self r_next }
    {
        self.r_cur = r_next;
        self.k += 1;
        self
    }

    // Whether the residual shrank or grew past the factor since it was recomputed.
    fn is_far(self) -> bool
        ensures { result ≡ is_far self }
    {
        let residual_factor = 0.01 * 0.01;
        let inv_residual_factor = 1.0 / residual_factor;
        self.r_cur < residual_factor * self.r_recompute
            || self.r_cur > inv_residual_factor * self.r_recompute
    }

    fn recomputed(mut self, r_next: f64) -> Self
        ensures { result ≡ recomputed_of self r_next }
    {
        self.r_cur = r_next;
        self.r_recompute = r_next;
        self
    }

    // Whether the residual is at most MIN_POSITIVE, which ends the turns, or lets none begin.
    fn is_last(self) -> bool
        ensures { result ≡ is_last self }
    {
        self.r_cur <= 2.2250738585072014e-308
    }

    // Whether the residual got worse; bb is b's square.
    fn is_worse(self, r_initial: f64, bb: f64) -> bool
        ensures { result ≡ is_worse self r_initial bb }
    {
        self.r_cur > r_initial && self.r_cur > r_initial + 1.0e-10 * bb
    }
}

// The first residual, the first direction against it, and the scalars. A is laid out square, here
// and in the turns; ap is room for A x.
fn cgd_begin(
    system: System<'_, '_>,
    x: &[f64],
    r: &mut [f64],
    p: &mut [f64],
    ap: &mut [f64],
) -> CgdState
    requires x_long { length x.now ≡ system.square.n }
    requires r_long { length r.old ≡ system.square.n }
    requires p_long { length p.old ≡ system.square.n }
    requires ap_long { length ap.old ≡ system.square.n }
    ensures begun { (a : List Float)
        → system.entry.square.cells.now ≡ square_of system.entry.square.n a
        → cgd_of x.now r.new p.new result ≡ begun a system.entry.square.n system.entry.b.now x.now }
    ensures no_turn { result.k ≡ 0 }
{
    system.square.times(x, ap);
    difference(system.b, ap, system.square.n, p);
    negated(p, r);
    CgdState::new(dot(r, r))
}

// The residual anew, where it is far from the last one that was.
fn recompute(
    system: System<'_, '_>,
    x: &[f64],
    r: &mut [f64],
    ap: &mut [f64],
    s: CgdState,
) -> CgdState
    requires x_long { length x.now ≡ system.square.n }
    requires r_long { length r.old ≡ system.square.n }
    requires ap_long { length ap.old ≡ system.square.n }
    ensures residual { (a : List Float)
        → system.entry.square.cells.now ≡ square_of system.entry.square.n a
        → r.new ≡ (if is_far s
        then residual a system.entry.square.n system.entry.b.now x.now else r.old) }
    ensures scalars { result ≡ (if is_far s
        then recomputed_of s (dot_of system.entry.square.n r.new r.new) else s) }
{
    if s.is_far() {
        system.square.times(x, ap);
        difference(ap, system.b, system.square.n, r);
        return s.recomputed(dot(r, r));
    }
    s
}

// A turn along p, up to the residual and its scalars.
fn cgd_turn(
    system: System<'_, '_>,
    x: &mut [f64],
    r: &mut [f64],
    p: &[f64],
    ap: &mut [f64],
    s: CgdState,
) -> CgdState
    requires few { s.k < 200 }
    requires x_long { length x.old ≡ system.square.n }
    requires r_long { length r.old ≡ system.square.n }
    requires p_long { length p.now ≡ system.square.n }
    requires ap_long { length ap.old ≡ system.square.n }
    ensures turn { (a : List Float)
        → system.entry.square.cells.now ≡ square_of system.entry.square.n a
        → turn_end system.entry.square.n p.now s x.new r.new result
        ≡ turn a system.entry.square.n system.entry.b.now (cgd_of x.old r.old p.now s) }
    ensures counted { result.k ≡ s.k + 1 }
{
    system.square.times(p, ap);
    let alpha = -dot(p, r) / dot(p, ap);
    add_scaled(alpha, p, x);
    add_scaled(alpha, ap, r);
    let moved = s.stepped(dot(r, r));
    recompute(system, x, r, ap, moved)
}

// At most n + 5 turns and at most max_iters, each but the last with the next direction.
fn cgd_turns(
    system: System<'_, '_>,
    x: &mut [f64],
    r: &mut [f64],
    p: &mut [f64],
    ap: &mut [f64],
    max_iters: usize,
    s: CgdState,
) -> CgdState
    requires no_turn { s.k ≡ 0 }
    requires few { system.square.n ≤ 128 }
    requires x_long { length x.old ≡ system.square.n }
    requires r_long { length r.old ≡ system.square.n }
    requires p_long { length p.old ≡ system.square.n }
    requires ap_long { length ap.old ≡ system.square.n }
    ensures { (a : List Float) → system.entry.square.cells.now ≡ square_of system.entry.square.n a
        → cgd_of x.new r.new p.new result
        ≡ final (leave (min (system.entry.square.n + 5) max_iters)
        (λ k. turn a system.entry.square.n system.entry.b.now) (cgd_of x.old r.old p.old s)) }
{
    let mut t = s;
    // No `for`: the turns are counted in the scalars, which also end them.
    while t.goes_on(system.square.n, max_iters) {
        let before = t;
        t = cgd_turn(system, x, r, p, ap, before);
        if t.is_last() {
            break;
        }
        next_direction(t.r_cur / before.r_cur, r, p);
    }
    t
}

// The exact solution, or the start where there is none.
fn exact_or_start(
    a: Symmetric<'_>,
    b: &[f64],
    x: &mut [f64],
    x_orig: &[f64],
    l: &mut [f64],
    y: &mut [f64],
)
    requires few { a.n ≤ 128 }
    requires b_long { a.n ≤ length b.now }
    requires x_long { length x.old ≡ a.n }
    requires start_long { length x_orig.now ≡ a.n }
    requires l_long { length l.old ≡ a.n * a.n }
    requires y_long { length y.old ≡ a.n }
    ensures { x.new ≡ solved_or x_orig.now a.entry.n b.now (factor_of a.entry.cells.now a.entry.n) }
{
    if !cholesky_solve(a, b, x, l, y) {
        copy(x_orig, x);
    }
}

/// A x = b from the start x, which is kept where it is the solution. Where the residual gets worse:
/// the exact solution, or the start again. The matrix laid out square, and then L, lies in scratch.
pub fn linear_cgd(a: Symmetric<'_>, b: &[f64], x: &mut [f64], max_iters: usize, scratch: &mut [f64])
    requires few { a.n ≤ 128 }
    requires b_long { a.n ≤ length b.now }
    requires x_long { length x.old ≡ a.n }
    requires scratch_long { a.n * a.n ≤ length scratch.old }
    ensures { x.new ≡ linear_cgd a.entry.cells.now a.entry.n b.now x.old max_iters }
{
    let n = a.n;
    // Each as long as the longest i-vector, with no heap; the front is cut out, as of scratch and
    // b.
    let mut start = [0.0f64; 128];
    let mut r = [0.0f64; 128];
    let mut p = [0.0f64; 128];
    let mut ap = [0.0f64; 128];
    let start = &mut start[..n];
    let r = &mut r[..n];
    let p = &mut p[..n];
    let ap = &mut ap[..n];
    let l = &mut scratch[..n * n];
    copy(x, start);
    a.lay_out(l);
    let square = Square { cells: l, n };
    let system = System { square, b };
    let first = cgd_begin(system, x, r, p, ap);
    if first.is_last() {
        return;
    }
    let last = cgd_turns(system, x, r, p, ap, max_iters, first);
    let front = &b[..n];
    if last.is_worse(first.r_cur, dot(front, front)) {
        exact_or_start(a, b, x, start, l, ap);
    }
}
