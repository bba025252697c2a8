//! Small functions that several crates use: where a ring's row begins, rows cleared and added.

ghost use Rattle.std.specs.Prelude.{◌≡◌, ◌+◌, ◌-◌, ◌<◌, ◌≤◌, leb, length, replicate, if◌then◌else◌};
ghost use Rattle.loops.specs.Lists.{over};
ghost use Rattle.loops.specs.Ring.{rows_in, place};
ghost use Rattle.loops.specs.Inner.{fill};
ghost use Rattle.floats.specs.Operators.{◌+₆₄◌, ◌-₆₄◌, ◌*₆₄◌, zero₆₄, at};

/// Where row t of a ring of so many numbers begins; its rows are `dim` wide.
pub fn row_place(numbers: usize, dim: usize, t: usize) -> usize
    requires { (0 < dim) × (0 < rows_in numbers dim) }
    ensures { result ≡ place numbers dim t }
{
    t % (numbers / dim) * dim
}

/// The same for a row of at most 64 numbers, with no division until a row is written over: until
/// then it is t rows on.
pub fn ring_place(numbers: usize, dim: usize, t: usize) -> usize
    requires { (0 < dim) × (dim ≤ 64) × (0 < rows_in numbers dim) × (t ≤ 1000000000) }
    ensures { result ≡ place numbers dim t }
{
    let here = t * dim;
    if here + dim <= numbers {
        return here;
    }
    row_place(numbers, dim, t)
}

/// Where the row after the one that begins `here` does: a row further, or at the ring's beginning
/// where no whole row is left.
pub fn row_after(numbers: usize, dim: usize, here: usize) -> usize
    requires { (dim ≤ 64) × (here ≤ numbers) }
    ensures { result ≡ (if leb (dim + dim) (numbers - here) then here + dim else 0) }
{
    if dim + dim <= numbers - here {
        here + dim
    } else {
        0
    }
}

/// Zeros in the first n places; what stands behind them is kept.
pub fn clear_front(x: &mut [f64], n: usize)
    requires { n ≤ length x.old }
    ensures { x.new ≡ over (replicate n zero₆₄) x.old }
{
    x[..n].fill(0.0);
}

/// v times a row, added to another. By index, here and below (limit: zip).
pub fn add_scaled(v: f64, row: &[f64], out: &mut [f64])
    requires { length out.old ≤ length row.now }
    ensures { out.new ≡ fill (length out.old) (λ c. at out.old c +₆₄ v *₆₄ at row.now c) out.old }
{
    for c in 0..out.len() {
        out[c] += v * row[c];
    }
}

/// One row less another, n places of each: they lie in tables and rings that go on behind them.
pub fn difference(high: &[f64], low: &[f64], n: usize, out: &mut [f64])
    requires { (n ≤ length high.now) × (n ≤ length low.now) × (n ≤ length out.old) }
    ensures { out.new ≡ fill n (λ i. at high.now i -₆₄ at low.now i) out.old }
{
    for i in 0..n {
        out[i] = high[i] - low[i];
    }
}
