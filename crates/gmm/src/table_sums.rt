//! Sums over the rows of a table, each row times a number, in the order of the rows. A pass takes
//! up to four rows, so that the sums are read and written a quarter as often. There is a function
//! for each number of rows (limit: const array). Each goes by index (limit: zip).

ghost use Rattle.std.specs.Prelude.{◌≡◌, ◌+◌, ◌*◌, ◌<◌, ◌≤◌, length, Float};
ghost use Rattle.loops.specs.Inner.{fill, from};
ghost use Rattle.floats.specs.Operators.{◌+₃₂◌, ◌*₃₂◌, at, sum₃₂};
ghost use Rattle.gmm.specs.Factor.{Gives, row};

// Adds a row times v.
#[tactic(auto, using(loops::proofs::Fill::fills))]
fn add_one(row: &[f32], v: f32, sum: &mut [f32])
    requires { length row.now ≡ length sum.old }
    ensures { sum.new ≡ fill (length sum.old) (λ m. at sum.old m +₃₂ at row.now m *₃₂ v) sum.old }
{
    for m in 0..sum.len() {
        sum[m] += row[m] * v;
    }
}

// Adds two rows, each times its number, one after the other.
#[tactic(auto, using(loops::proofs::Fill::fills))]
fn add_two(r0: &[f32], r1: &[f32], v0: f32, v1: f32, sum: &mut [f32])
    requires { (length r0.now ≡ length sum.old) × (length r1.now ≡ length sum.old) }
    ensures { sum.new ≡ fill (length sum.old)
        (λ m. at sum.old m +₃₂ at r0.now m *₃₂ v0 +₃₂ at r1.now m *₃₂ v1) sum.old }
{
    for m in 0..sum.len() {
        sum[m] = sum[m] + r0[m] * v0 + r1[m] * v1;
    }
}

// Adds three.
#[tactic(auto, using(loops::proofs::Fill::fills))]
fn add_three(r0: &[f32], r1: &[f32], r2: &[f32], v0: f32, v1: f32, v2: f32, sum: &mut [f32])
    requires { (length r0.now ≡ length sum.old) × (length r1.now ≡ length sum.old)
        × (length r2.now ≡ length sum.old) }
    ensures { sum.new ≡ fill (length sum.old)
        (λ m. at sum.old m +₃₂ at r0.now m *₃₂ v0 +₃₂ at r1.now m *₃₂ v1 +₃₂ at r2.now m
        *₃₂ v2) sum.old }
{
    for m in 0..sum.len() {
        sum[m] = sum[m] + r0[m] * v0 + r1[m] * v1 + r2[m] * v2;
    }
}

// Adds four.
#[tactic(auto, using(loops::proofs::Fill::fills))]
fn add_four(
    r0: &[f32],
    r1: &[f32],
    r2: &[f32],
    r3: &[f32],
    v0: f32,
    v1: f32,
    v2: f32,
    v3: f32,
    sum: &mut [f32],
)
    requires { (length r0.now ≡ length sum.old) × (length r1.now ≡ length sum.old)
        × (length r2.now ≡ length sum.old) × (length r3.now ≡ length sum.old) }
    ensures { sum.new ≡ fill (length sum.old)
        (λ m. at sum.old m +₃₂ at r0.now m *₃₂ v0 +₃₂ at r1.now m *₃₂ v1 +₃₂ at r2.now m *₃₂ v2
        +₃₂ at r3.now m *₃₂ v3) sum.old }
{
    for m in 0..sum.len() {
        sum[m] = sum[m] + r0[m] * v0 + r1[m] * v1 + r2[m] * v2 + r3[m] * v3;
    }
}

// Row k of a table whose rows have n numbers. Cut by hand: n may be 0, which `chunks_exact`
// refuses.
fn row_at(table: &[f32], n: usize, k: usize) -> &[f32]
    requires { k * n + n ≤ length table.now }
    ensures { (result.now ≡ row n table.now k) × (length result.now ≡ n) }
{
    let start = k * n;
    let end = start + n;
    &table[start..end]
}

// Adds the next rows from row k on, at most four, each times what `times` makes of its number. It
// returns the row where it stops.
fn add_next<F: Fn(f32) -> f32>(
    table: &[f32],
    x: &[f32],
    times: &F,
    k: usize,
    d: usize,
    sum: &mut [f32],
) -> usize
    requires callable { F.IsAlwaysCallable times.now }
    requires row_left { k < d }
    requires in_table { d * length sum.old ≤ length table.now }
    requires in_x { d ≤ length x.now }
    ensures onward { k < result }
    ensures within { result ≤ d }
    ensures sums { (f : Float → Float) → Gives (F.post times.now) f
        → sum.new ≡ fill (length sum.old)
        (λ m. from k result (λ i a. a +₃₂ at table.now (i * length sum.old + m) *₃₂ f (at x.now i))
        (at sum.old m)) sum.old }
{
    let n = sum.len();
    let r0 = row_at(table, n, k);
    let v0 = times(x[k]);
    let left = d - k;
    if left == 1 {
        add_one(r0, v0, sum);
        return k + 1;
    }
    let r1 = row_at(table, n, k + 1);
    let v1 = times(x[k + 1]);
    if left == 2 {
        add_two(r0, r1, v0, v1, sum);
        return k + 2;
    }
    let r2 = row_at(table, n, k + 2);
    let v2 = times(x[k + 2]);
    if left == 3 {
        add_three(r0, r1, r2, v0, v1, v2, sum);
        return k + 3;
    }
    let r3 = row_at(table, n, k + 3);
    let v3 = times(x[k + 3]);
    add_four(r0, r1, r2, r3, v0, v1, v2, v3, sum);
    k + 4
}

/// Adds the first `d` rows of `table` to `sum`: row `k` times what `times` makes of `x[k]`. Each
/// row is as long as `sum`.
pub fn add_rows<F: Fn(f32) -> f32>(table: &[f32], x: &[f32], times: F, d: usize, sum: &mut [f32])
    requires callable { F.IsAlwaysCallable times }
    requires in_table { d * length sum.old ≤ length table.now }
    requires in_x { d ≤ length x.now }
    ensures { (f : Float → Float) → Gives (F.post times) f
        → sum.new ≡ fill (length sum.old)
        (λ m. sum₃₂ (at sum.old m) d
        (λ k. at table.now (k * length sum.old + m) *₃₂ f (at x.now k))) sum.old }
{
    // no for: a pass takes up to four rows
    let mut k = 0;
    while k < d {
        k = add_next(table, x, &times, k, d, sum);
    }
}
