//! The leading posteriors, in lent rooms. Candidates are held unordered, as they come; a bound that
//! rises leaves those behind it out (`choose`, `keep`). What is left of them at the end is put in
//! order (`order`): a new one goes to its place, and the last falls off a full list. Rooms go with
//! the number of places in use, since more is lent than that (limit: loans).

ghost use Rattle.std.specs.Prelude.{◌≡◌, true, false, not, Some, IfSome, List, ◌++◌, ℕ, ◌+◌, ◌-◌, ◌<◌, ◌≤◌, length, get_or, set, take, drop};
ghost use Rattle.std.specs.Float.Ieee.{is_nan};
ghost use Rattle.loops.specs.Lists.{those};
ghost use Rattle.floats.specs.Operators.{f32, at};
ghost use Rattle.definition.specs.Posteriors.{ahead as is_ahead, insert as insert_of};
ghost use Rattle.gmm.specs.Inner.Leading.{posts_in, stays, into, Falling, Place, Moved, slid};
ghost use Rattle.gmm.specs.Inner.LeadingRooms.{HasPlaces, SameChosen, HoldingIn, leading_of};

/// The rooms of a selection, a place of each for a Gaussian, the likeliest first.
#[derive(Drop)]
pub struct Chosen<'a> {
    pub gauss: &'a mut [usize],
    /// Their posteriors.
    pub posts: &'a mut [f32],
}

// Whether the posterior p is ahead of q: larger; a NaN stands last.
fn ahead(p: f32, q: f32) -> bool
    ensures { result ≡ is_ahead (0, p) (0, q) }
{
    !p.is_nan() && (q.is_nan() || p > q)
}

// x put down at `first`, what stood there at the next place, and so on up to n. By index: nothing
// moves where n is at most `first`.
fn slide<T: Copy>(x: T, first: usize, n: usize, room: &mut [T])
    requires { n ≤ length room.old }
    ensures { room.new ≡ slid first n x room.old }
{
    let mut moving = x;
    for j in first..n {
        let next = room[j];
        room[j] = moving;
        moving = next;
    }
}

// Whether p belongs in front of the first n.
fn belongs_first(p: f32, n: usize, posts: &[f32]) -> bool
    requires { n ≤ length posts.now }
    ensures { result ≡ true → 0 < n → is_ahead (0, p) (0, at posts.now 0) ≡ true }
{
    if n == 0 {
        return true;
    }
    ahead(p, posts[0])
}

// Whether p is ahead of the last of n, and so of one of them.
fn enters(p: f32, n: usize, chosen: &Chosen<'_>) -> bool
    requires { (n ≤ length chosen.now.posts.now) × Falling n chosen.now.posts.now }
    ensures { (result ≡ true → (0 < n)
        × (is_ahead (0, p) (0, at chosen.now.posts.now (n - 1)) ≡ true))
        × (result ≡ false → (k : ℕ) → k < n
        → is_ahead (0, p) (0, at chosen.now.posts.now k) ≡ false) }
{
    if n == 0 {
        return false;
    }
    ahead(p, chosen.posts[n - 1])
}

// What stands in front of place j, put down at j too.
fn move_up<T: Copy>(j: usize, room: &mut [T])
    requires { (0 < j) × (j < length room.old) }
    ensures { (d : T) → room.new ≡ set room.old j (get_or room.old (j - 1) d) }
{
    room[j] = room[j - 1];
}

// From place `last` on towards the front, those that p is ahead of moved up by one, four at a time:
// the one at the answer stands there twice. The walk, here and in `put_in_order`, takes the two
// slices: a struct's would be read again after each write.
fn move_up_by_fours(p: f32, last: usize, chosen: &mut [usize], posts: &mut [f32]) -> usize
    requires { (last < length chosen.old) × (last < length posts.old) }
    ensures { Moved p last result chosen.old posts.old chosen.new posts.new }
{
    let mut j = last;
    // No `for`: the place where the walk ends is the answer.
    while j > 3 {
        if ahead(p, posts[j - 4]) {
            move_up(j, chosen);
            move_up(j - 1, chosen);
            move_up(j - 2, chosen);
            move_up(j - 3, chosen);
            move_up(j, posts);
            move_up(j - 1, posts);
            move_up(j - 2, posts);
            move_up(j - 3, posts);
            j -= 4;
        } else {
            return j;
        }
    }
    j
}

// Gaussian g and its posterior p put down where p belongs among the first `last`, behind its
// equals; those behind it move up by one, to `last` at most. At the front, or by a walk from the
// last on, which moves those that it passes, four at a time while it can. The answer is the place.
fn put_in_order(g: usize, p: f32, last: usize, chosen: &mut [usize], posts: &mut [f32]) -> usize
    requires { (last < length chosen.old) × (last < length posts.old) × Falling last posts.old }
    ensures { (chosen.new ≡ slid result (last + 1) g chosen.old)
        × (posts.new ≡ slid result (last + 1) p posts.old) × Place p last posts.old result }
{
    if belongs_first(p, last, posts) {
        slide(g, 0, last + 1, chosen);
        slide(p, 0, last + 1, posts);
        return 0;
    }
    let mut j = move_up_by_fours(p, last, chosen, posts);
    // No `for`: the place where the walk ends is the answer.
    while j > 0 {
        let q = posts[j - 1];
        if ahead(p, q) {
            chosen[j] = chosen[j - 1];
            posts[j] = q;
            j -= 1;
        } else {
            chosen[j] = g;
            posts[j] = p;
            return j;
        }
    }
    chosen[j] = g;
    posts[j] = p;
    j
}

/// Puts Gaussian g with its posterior p in among the first n; past num_gselect the last falls off.
/// The answer is how many there are.
pub fn insert(g: usize, p: f32, n: usize, num_gselect: usize, chosen: &mut Chosen<'_>) -> usize
    requires few { n ≤ num_gselect }
    requires places { HasPlaces num_gselect chosen.old }
    requires in_order { Falling n chosen.old.posts.now }
    ensures inserted { posts_in result chosen.new.gauss.now chosen.new.posts.now
        ≡ take num_gselect
        (insert_of (g, p) (posts_in n chosen.old.gauss.now chosen.old.posts.now)) }
    ensures most { result ≤ num_gselect }
    ensures loans { SameChosen chosen.old chosen.new }
{
    if n < num_gselect {
        put_in_order(g, p, n, chosen.gauss, chosen.posts);
        return n + 1;
    }
    if enters(p, n, chosen) {
        put_in_order(g, p, n - 1, chosen.gauss, chosen.posts);
        return n;
    }
    n
}

/// The first n candidates put in among the `already` that are chosen, one after the other: only
/// here are they ordered.
pub fn order(
    n: usize,
    gauss: &[usize],
    posts: &[f32],
    already: usize,
    num_gselect: usize,
    chosen: &mut Chosen<'_>,
) -> usize
    requires candidates { (n ≤ length gauss.now) × (n ≤ length posts.now) }
    requires few { already ≤ num_gselect }
    requires places { HasPlaces num_gselect chosen.old }
    requires in_order { Falling already chosen.old.posts.now }
    ensures ordered { posts_in result chosen.new.gauss.now chosen.new.posts.now
        ≡ take num_gselect
        (into (posts_in already chosen.old.gauss.now chosen.old.posts.now)
        (posts_in n gauss.now posts.now)) }
    ensures in_order { Falling result chosen.new.posts.now }
    ensures most { result ≤ num_gselect }
    ensures loans { SameChosen chosen.old chosen.new }
{
    let mut count = already;
    // By index: a candidate stands in two lists.
    for j in 0..n {
        count = insert(gauss[j], posts[j], count, num_gselect, chosen);
    }
    count
}

// Whether a candidate's posterior p is not behind v, which is a number: one comparison.
fn stays_at(v: f32, p: f32) -> bool
    requires { is_nan v ≡ false }
    ensures { result ≡ not (is_ahead (0, v) (0, p)) }
{
    p >= v
}

// How many of the first n candidates are not behind v.
fn staying(v: f32, n: usize, posts: &[f32]) -> usize
    requires places { n ≤ length posts.now }
    requires number { is_nan v ≡ false }
    ensures { (gauss : List ℕ) → n ≤ length gauss
        → result ≡ length (those (stays (Some v)) (posts_in n gauss posts.now)) }
{
    let mut count = 0;
    // By index and with no branch.
    for j in 0..n {
        count += stays_at(v, posts[j]) as usize;
    }
    count
}

// The place of the candidate that is looked at in turn t. First that of the one that is sought
// where they rise; then of the one where they fall, those behind it, and those in front.
fn looked_at(t: usize, num_gselect: usize, n: usize) -> usize
    requires { (0 < num_gselect) × (num_gselect ≤ n) × (t ≤ n) }
    ensures { result < n }
{
    let behind = n - num_gselect;
    if t == 0 {
        behind
    } else if t <= behind + 1 {
        num_gselect - 1 + (t - 1)
    } else {
        t - behind - 2
    }
}

// A posterior that num_gselect of the first n candidates are not behind, if they are more: that of
// the last of the leading ones, if one has it alone. Of those looked at, `low` is the foremost that
// has so many not behind it, and `high` the last that has fewer; the walk is left where one has
// just as many, and after six looks with what was found: an order can be such that each counts.
// None is sought where some are in order already, since a choice has left too many before.
fn find_bound(ordered: usize, num_gselect: usize, n: usize, posts: &[f32]) -> Option<f32>
    requires { n ≤ length posts.now }
    ensures { IfSome result (λ v. (gauss : List ℕ) → n ≤ length gauss
        → num_gselect ≤ length (those (stays (Some v)) (posts_in n gauss posts.now))) }
{
    if ordered > 0 || num_gselect == 0 || n <= num_gselect {
        return None;
    }
    let mut bound = None;
    let mut low = -1.0 / 0.0;
    let mut high = 1.0 / 0.0;
    let mut looks = 0usize;
    // By index: which candidate is looked at is reckoned.
    for t in 0..n + 1 {
        let x = posts[looked_at(t, num_gselect, n)];
        if low < x {
            if x < high {
                if looks == 6 {
                    return bound;
                }
                looks += 1;
                let count = staying(x, n, posts);
                if count == num_gselect {
                    return Some(x);
                }
                if count > num_gselect {
                    bound = Some(x);
                    low = x;
                } else {
                    high = x;
                }
            }
        }
    }
    bound
}

/// Of the candidates from place `first` up to `end` those behind the bound are left out, if there
/// is a bound, and the others moved together. The answer is where they end. By index, and with no
/// branch in the loop.
pub fn keep(
    bound: Option<f32>,
    first: usize,
    end: usize,
    gauss: &mut [usize],
    posts: &mut [f32],
) -> usize
    requires { (first ≤ end) × (end ≤ length gauss.old) × (end ≤ length posts.old) }
    ensures kept { posts_in result gauss.new posts.new
        ≡ posts_in first gauss.old posts.old
        ++ those (stays bound) (drop first (posts_in end gauss.old posts.old)) }
    ensures fewer { (first ≤ result) × (result ≤ end) }
{
    let Some(v) = bound else {
        return end;
    };
    let mut n = first;
    for j in first..end {
        let g = gauss[j];
        let p = posts[j];
        gauss[n] = g;
        posts[n] = p;
        n += !ahead(v, p) as usize;
    }
    n
}

// What a choice leaves: how many candidates, and the bound that they are not behind, if there is
// one.
#[derive(Clone, Copy)]
struct Choice {
    count: usize,
    bound: Option<f32>,
}

// Of the first n candidates the leading num_gselect are chosen, with those level with the last of
// them. They stay in the order in which they came.
fn choose(
    ordered: usize,
    num_gselect: usize,
    n: usize,
    gauss: &mut [usize],
    posts: &mut [f32],
) -> Choice
    requires { (n ≤ length gauss.old) × (n ≤ length posts.old) }
    ensures chosen { posts_in result.count gauss.new posts.new
        ≡ those (stays result.bound) (posts_in n gauss.old posts.old) }
    ensures enough { IfSome result.bound
        (λ v. num_gselect ≤ length (those (stays (Some v)) (posts_in n gauss.old posts.old))) }
    ensures fewer { result.count ≤ n }
{
    let bound = find_bound(ordered, num_gselect, n, posts);
    let count = keep(bound, 0, n, gauss, posts);
    Choice { count, bound }
}

/// What a selection holds on the way.
#[derive(Clone, Copy)]
pub struct Holding {
    /// How many candidates, unordered.
    pub candidates: usize,
    /// How many that are in order among the chosen.
    pub ordered: usize,
    /// What num_gselect of the candidates are not behind.
    pub bound: Option<f32>,
}

/// Room for 16 more candidates among 64: where more than 48 are held, the leading ones are chosen.
/// Where more are left, since more are selected or are level with the last, all go in order to the
/// chosen, as they do at the end.
pub fn make_room(
    holding: Holding,
    num_gselect: usize,
    gauss: &mut [usize],
    posts: &mut [f32],
    chosen: &mut Chosen<'_>,
) -> Holding
    requires places { HasPlaces num_gselect chosen.old }
    requires holds { HoldingIn num_gselect holding gauss.old posts.old chosen.old }
    ensures leading { leading_of num_gselect result gauss.new posts.new chosen.new
        ≡ leading_of num_gselect holding gauss.old posts.old chosen.old }
    ensures holds { HoldingIn num_gselect result gauss.new posts.new chosen.new }
    ensures room { result.candidates ≤ 48 }
    ensures loans { SameChosen chosen.old chosen.new }
{
    if holding.candidates <= 48 {
        return holding;
    }
    let choice = choose(
        holding.ordered,
        num_gselect,
        holding.candidates,
        gauss,
        posts,
    );
    if choice.count <= 48 {
        return Holding {
            candidates: choice.count,
            ordered: holding.ordered,
            bound: choice.bound,
        };
    }
    let ordered = order(
        choice.count,
        gauss,
        posts,
        holding.ordered,
        num_gselect,
        chosen,
    );
    Holding {
        candidates: 0,
        ordered,
        bound: None,
    }
}

/// The end: the leading ones are chosen, and only those are put in order. The answer is how many
/// the chosen are.
pub fn finish(
    holding: Holding,
    num_gselect: usize,
    gauss: &mut [usize],
    posts: &mut [f32],
    chosen: &mut Chosen<'_>,
) -> usize
    requires places { HasPlaces num_gselect chosen.old }
    requires holds { HoldingIn num_gselect holding gauss.old posts.old chosen.old }
    ensures finished { posts_in result chosen.new.gauss.now chosen.new.posts.now
        ≡ leading_of num_gselect holding gauss.old posts.old chosen.old }
    ensures most { result ≤ num_gselect }
    ensures loans { SameChosen chosen.old chosen.new }
{
    let ordered = holding.ordered;
    let last = choose(ordered, num_gselect, holding.candidates, gauss, posts);
    order(
        last.count,
        gauss,
        posts,
        holding.ordered,
        num_gselect,
        chosen,
    )
}
