//! The posteriors of the most likely Gaussians, from the log-likelihoods of all. `ln` is the
//! logarithm of the prune floor. Rooms go with the number of places in use, since more is lent than
//! that (limit: loans).

ghost use Rattle.std.specs.Prelude.{◌≡◌, ◌||◌, false, IfSome, List, [], ◌∷◌, ℕ, ◌+◌, ◌-◌, ◌*◌, ◌<◌, ◌≤◌, length, take, drop};
ghost use Rattle.std.specs.Float.Ieee.{eq, lt, neg, is_nan};
ghost use Rattle.loops.specs.Lists.{those};
ghost use Rattle.loops.specs.Inner.{fill};
ghost use Rattle.floats.specs.Operators.{◌-₃₂◌, ◌*₃₂◌, f32, zero₃₂, at, sum₃₂};
ghost use Rattle.floats.specs.Exp.{exp_of};
ghost use Rattle.floats.specs.Ln.{ln_narrow};
ghost use Rattle.definition.specs.Posteriors.{pruned, every, max_like, ranked, best_of, renormalised, nan_count};
ghost use Rattle.gmm.specs.Inner.Leading.{posts_in};
ghost use Rattle.gmm.specs.Inner.LeadingRooms.{HasPlaces, SameChosen};
ghost use Rattle.gmm.specs.Inner.PosteriorsRooms.{Selected, Collects, Likely};
ghost use Rattle.gmm.specs.Inner.Posteriors.{Next, likelihoods as likelihoods_of, passes, place_or, above as above_of, least, top, joined};

use crate::leading::{self, Chosen, Holding};

// The likelihood of a difference d from the largest log-likelihood; the largest itself has one of
// the two zeros. Not inlined: the caller's loop would begin with its constants, also for one
// likelihood.
#[inline(never)]
fn likelihood(d: f32) -> f32
    ensures { result ≡ exp_of d }
{
    if d == 0.0 {
        return 1.0;
    }
    // before the series is added up
    if d < -104.0 {
        return 0.0;
    }
    floats::exp(d)
}

// The first of the four from k on that is above the cutoff.
fn first_of_four(cutoff: f32, k: usize, loglikes: &[f32]) -> Option<usize>
    requires { k + 4 ≤ length loglikes.now }
    ensures first { Next (λ i. lt cutoff (at loglikes.now i)) k (k + 4) (place_or (k + 4) result) }
    ensures in_list { IfSome result (λ i. i < k + 4) }
{
    if loglikes[k] > cutoff {
        Some(k)
    } else if loglikes[k + 1] > cutoff {
        Some(k + 1)
    } else if loglikes[k + 2] > cutoff {
        Some(k + 2)
    } else if loglikes[k + 3] > cutoff {
        Some(k + 3)
    } else {
        None
    }
}

// The first from g on that is above the cutoff.
fn next_above(cutoff: f32, g: usize, loglikes: &[f32]) -> Option<usize>
    requires { g ≤ length loglikes.now }
    ensures first { Next (λ k. lt cutoff (at loglikes.now k)) g (length loglikes.now)
        (place_or (length loglikes.now) result) }
    ensures in_list { IfSome result (λ k. k < length loglikes.now) }
{
    let mut k = g;
    // No `for`: eight at a time.
    while loglikes.len() - k >= 8 {
        if let Some(i) = first_of_four(cutoff, k, loglikes) {
            return Some(i);
        }
        if let Some(i) = first_of_four(cutoff, k + 4, loglikes) {
            return Some(i);
        }
        k += 8;
    }
    // By index: the place is the answer.
    for i in k..loglikes.len() {
        if loglikes[i] > cutoff {
            return Some(i);
        }
    }
    None
}

// The first from g on that is above the cutoff, or g itself where there is no cutoff.
fn next(cutoff: Option<f32>, g: usize, loglikes: &[f32]) -> Option<usize>
    requires { g ≤ length loglikes.now }
    ensures first { Next (λ k. passes cutoff (at loglikes.now k)) g (length loglikes.now)
        (place_or (length loglikes.now) result) }
    ensures in_list { IfSome result (λ k. k < length loglikes.now) }
{
    let Some(cutoff) = cutoff else {
        return (g < loglikes.len()).then_some(g);
    };
    next_above(cutoff, g, loglikes)
}

// How many candidates are held, and the Gaussian that the walk goes on from.
#[derive(Clone, Copy)]
struct Collected {
    count: usize,
    next: usize,
}

// The Gaussians from g on that are above the cutoff, or all where there is none, put down as
// candidates from place `first` on, until the lists, which are equally long, are full: each with
// its log-likelihood's difference from the largest.
fn collect(
    cutoff: Option<f32>,
    max_like: f32,
    g: usize,
    loglikes: &[f32],
    first: usize,
    gauss: &mut [usize],
    likes: &mut [f32],
) -> Collected
    requires { (first ≤ length gauss.old) × (length likes.old ≡ length gauss.old)
        × (g ≤ length loglikes.now) }
    ensures collected { Collects cutoff (λ l. l -₃₂ max_like) loglikes.now g first result.next
        result.count gauss.old likes.old gauss.new likes.new }
    ensures places { (first ≤ result.count) × (result.count ≤ length gauss.old)
        × (result.next ≤ length loglikes.now) }
    ensures on { first < length gauss.old → g < length loglikes.now → g < result.next }
{
    let mut n = first;
    let mut k = g;
    // No `for`: where the walk ends is the answer.
    while n < gauss.len() {
        let Some(found) = next(cutoff, k, loglikes) else {
            return Collected {
                count: n,
                next: loglikes.len(),
            };
        };
        gauss[n] = found;
        likes[n] = loglikes[found] - max_like;
        n += 1;
        k = found + 1;
    }
    Collected { count: n, next: k }
}

// The likelihoods of the differences from place `first` up to `end`, sixteen at most. In three
// loops, so that the one that computes is compiled to vector instructions.
fn some_likelihoods(first: usize, end: usize, likes: &mut [f32])
    requires { (first ≤ end) × (end ≤ first + 16) × (end ≤ length likes.old) }
    ensures { Likely first end likes.old likes.new }
{
    let n = end - first;
    let mut wide = [0.0f64; 16];
    for i in 0..n {
        wide[i] = floats::exp_argument(likes[first + i]);
    }
    for j in 0..n {
        wide[j] = floats::exp_wide(wide[j]);
    }
    for k in 0..n {
        likes[first + k] = floats::exp_narrow(likes[first + k], wide[k]);
    }
}

// Whether the likelihood of the difference d needs no series: d is 0, or so far below that it is 0.
fn is_plain(d: f32) -> bool
    ensures { result ≡ (eq d zero₃₂ || lt d (neg (f32 0x42d0_0000))) }
{
    d == 0.0 || d < -104.0
}

// The likelihoods of the differences from place `first` up to `end`, each made alone.
fn each_likelihood(first: usize, end: usize, likes: &mut [f32])
    requires { (first ≤ end) × (end ≤ length likes.old) }
    ensures { Likely first end likes.old likes.new }
{
    for i in first..end {
        likes[i] = likelihood(likes[i]);
    }
}

// The likelihoods of the differences from place `first` up to `end`, sixteen at most: side by side,
// or each alone where the first, the middle and the last need no series.
fn group_likelihoods(first: usize, end: usize, likes: &mut [f32])
    requires { (first < end) × (end ≤ first + 16) × (end ≤ length likes.old) }
    ensures { Likely first end likes.old likes.new }
{
    let middle = first + (end - first) / 2;
    if is_plain(likes[first]) && is_plain(likes[middle]) && is_plain(likes[end - 1]) {
        each_likelihood(first, end, likes);
    } else {
        some_likelihoods(first, end, likes);
    }
}

// The likelihoods of the differences from place `first` up to `end`. Of fewer than four each is
// made alone, the largest with no exponential.
fn make_likely(first: usize, end: usize, likes: &mut [f32])
    requires { (first ≤ end) × (end ≤ length likes.old) }
    ensures { Likely first end likes.old likes.new }
{
    if end - first < 4 {
        each_likelihood(first, end, likes);
        return;
    }
    let mut j = first;
    // No `for`: the last turn can be shorter.
    while end - j > 16 {
        group_likelihoods(j, j + 16, likes);
        j += 16;
    }
    group_likelihoods(j, end, likes);
}

// Candidates as `collect` has them, each with its likelihood.
fn candidates(
    cutoff: Option<f32>,
    max_like: f32,
    g: usize,
    loglikes: &[f32],
    first: usize,
    gauss: &mut [usize],
    likes: &mut [f32],
) -> Collected
    requires { (first ≤ length gauss.old) × (length likes.old ≡ length gauss.old)
        × (g ≤ length loglikes.now) }
    ensures collected { Collects cutoff (λ l. exp_of (l -₃₂ max_like)) loglikes.now g first
        result.next result.count gauss.old likes.old gauss.new likes.new }
    ensures places { (first ≤ result.count) × (result.count ≤ length gauss.old)
        × (result.next ≤ length loglikes.now) }
    ensures on { first < length gauss.old → g < length loglikes.now → g < result.next }
{
    let more = collect(cutoff, max_like, g, loglikes, first, gauss, likes);
    make_likely(first, more.count, likes);
    more
}

// The first n candidates of two lists, put into two others.
fn copy(n: usize, from_gauss: &[usize], from_likes: &[f32], gauss: &mut [usize], likes: &mut [f32])
    requires { (n ≤ length from_gauss.now) × (n ≤ length from_likes.now) × (n ≤ length gauss.old)
        × (n ≤ length likes.old) }
    ensures { posts_in n gauss.new likes.new ≡ posts_in n from_gauss.now from_likes.now }
{
    for j in 0..n {
        gauss[j] = from_gauss[j];
        likes[j] = from_likes[j];
    }
}

// The most likely where there are more candidates than the few that were met first. They are held
// unordered, 64 at most, and the leading ones are chosen among them where room is wanted.
fn gather_many(
    cutoff: Option<f32>,
    max_like: f32,
    loglikes: &[f32],
    num_gselect: usize,
    few: Collected,
    few_gauss: &[usize],
    few_likes: &[f32],
    chosen: &mut Chosen<'_>,
) -> usize
    requires places { HasPlaces num_gselect chosen.old }
    requires few { (few.count ≤ 16) × (few.count ≤ length few_gauss.now)
        × (few.count ≤ length few_likes.now) × (few.next ≤ length loglikes.now) }
    requires met { posts_in few.count few_gauss.now few_likes.now
        ≡ likelihoods_of max_like
        (those (λ p. passes cutoff p.1) (take few.next (every loglikes.now))) }
    ensures gathered { posts_in result chosen.new.gauss.now chosen.new.posts.now
        ≡ ranked num_gselect max_like (those (λ p. passes cutoff p.1) (every loglikes.now)) }
    ensures most { result ≤ num_gselect }
    ensures loans { SameChosen chosen.old chosen.new }
{
    let mut gauss = [0usize; 64];
    let mut likes = [0.0f32; 64];
    copy(few.count, few_gauss, few_likes, &mut gauss, &mut likes);
    let mut holding = Holding {
        candidates: few.count,
        ordered: 0,
        bound: None,
    };
    let mut g = few.next;
    // No `for`: a turn goes over as many Gaussians as give the candidates that there is room for.
    while g < loglikes.len() {
        let more = candidates(
            cutoff,
            max_like,
            g,
            loglikes,
            holding.candidates,
            &mut gauss,
            &mut likes,
        );
        let kept = leading::keep(
            holding.bound,
            holding.candidates,
            more.count,
            &mut gauss,
            &mut likes,
        );
        let with = Holding {
            candidates: kept,
            ordered: holding.ordered,
            bound: holding.bound,
        };
        holding = leading::make_room(with, num_gselect, &mut gauss, &mut likes, chosen);
        g = more.next;
    }
    leading::finish(holding, num_gselect, &mut gauss, &mut likes, chosen)
}

// Whether a log-likelihood is above the cutoff, if there is one.
fn is_above(cutoff: Option<f32>, l: f32) -> bool
    ensures { result ≡ passes cutoff l }
{
    match cutoff {
        Some(cutoff) => l > cutoff,
        None => true,
    }
}

// The most likely of few Gaussians, or of such as need no exponential: those that pass are put in
// order at once, and no room for candidates is cleared.
fn gather_few(
    cutoff: Option<f32>,
    max_like: f32,
    loglikes: &[f32],
    num_gselect: usize,
    chosen: &mut Chosen<'_>,
) -> usize
    requires { HasPlaces num_gselect chosen.old }
    ensures gathered { posts_in result chosen.new.gauss.now chosen.new.posts.now
        ≡ ranked num_gselect max_like (those (λ p. passes cutoff p.1) (every loglikes.now)) }
    ensures most { result ≤ num_gselect }
    ensures loans { SameChosen chosen.old chosen.new }
{
    let mut n = 0;
    // By index: the place is the Gaussian.
    for g in 0..loglikes.len() {
        if is_above(cutoff, loglikes[g]) {
            let p = likelihood(loglikes[g] - max_like);
            n = leading::insert(g, p, n, num_gselect, chosen);
        }
    }
    n
}

// The most likely of the Gaussians above the cutoff, or of all where there is none. Sixteen at most
// are put in order with no choice among them, and the room that is cleared for them is small.
fn gather(
    cutoff: Option<f32>,
    max_like: f32,
    loglikes: &[f32],
    num_gselect: usize,
    chosen: &mut Chosen<'_>,
) -> usize
    requires { HasPlaces num_gselect chosen.old }
    ensures gathered { posts_in result chosen.new.gauss.now chosen.new.posts.now
        ≡ ranked num_gselect max_like (those (λ p. passes cutoff p.1) (every loglikes.now)) }
    ensures most { result ≤ num_gselect }
    ensures loans { SameChosen chosen.old chosen.new }
{
    if loglikes.len() <= 16 {
        return gather_few(cutoff, max_like, loglikes, num_gselect, chosen);
    }
    let mut gauss = [0usize; 16];
    let mut likes = [0.0f32; 16];
    let few = candidates(cutoff, max_like, 0, loglikes, 0, &mut gauss, &mut likes);
    if few.next == loglikes.len() {
        return leading::order(few.count, &gauss, &likes, 0, num_gselect, chosen);
    }
    // where most need no exponential, there is nothing that candidates would save
    let plain = likes.iter().filter(|&&p| p == 0.0 || p == 1.0).count();
    if plain > 11 {
        return gather_few(cutoff, max_like, loglikes, num_gselect, chosen);
    }
    gather_many(
        cutoff,
        max_like,
        loglikes,
        num_gselect,
        few,
        &gauss,
        &likes,
        chosen,
    )
}

// The larger of m and l; m, which is no NaN, where l is one.
fn above(m: f32, l: f32) -> f32
    ensures { result ≡ above_of m l }
{
    if m < l { l } else { m }
}

// Part k of the parts that are h long.
fn part(h: usize, k: usize, loglikes: &[f32]) -> &[f32]
    requires { k * h + h ≤ length loglikes.now }
    ensures { (result.now ≡ take h (drop (k * h) loglikes.now)) × (length result.now ≡ h) }
{
    let start = k * h;
    let end = start + h;
    &loglikes[start..end]
}

// What is behind eight such parts.
fn behind(h: usize, loglikes: &[f32]) -> &[f32]
    requires { 8 * h ≤ length loglikes.now }
    ensures { result.now ≡ drop (8 * h) loglikes.now }
{
    let start = 8 * h;
    &loglikes[start..]
}

// The largest of each of eight parts at once, so that no comparison waits for the last; then of
// those, in the order of the parts.
fn largest_of_parts(
    a: &[f32],
    b: &[f32],
    c: &[f32],
    d: &[f32],
    e: &[f32],
    f: &[f32],
    g: &[f32],
    h: &[f32],
) -> f32
    requires { (length b.now ≡ length a.now) × (length c.now ≡ length a.now)
        × (length d.now ≡ length a.now) × (length e.now ≡ length a.now)
        × (length f.now ≡ length a.now) × (length g.now ≡ length a.now)
        × (length h.now ≡ length a.now) }
    ensures { result
        ≡ joined (top least a.now)
        (b.now ∷ c.now ∷ d.now ∷ e.now ∷ f.now ∷ g.now ∷ h.now ∷ []) }
{
    let mut ma = -1.0 / 0.0;
    let mut mb = -1.0 / 0.0;
    let mut mc = -1.0 / 0.0;
    let mut md = -1.0 / 0.0;
    let mut me = -1.0 / 0.0;
    let mut mf = -1.0 / 0.0;
    let mut mg = -1.0 / 0.0;
    let mut mh = -1.0 / 0.0;
    // By index: eight slices side by side.
    for i in 0..a.len() {
        ma = above(ma, a[i]);
        mb = above(mb, b[i]);
        mc = above(mc, c[i]);
        md = above(md, d[i]);
        me = above(me, e[i]);
        mf = above(mf, f[i]);
        mg = above(mg, g[i]);
        mh = above(mh, h[i]);
    }
    let m = above(ma, mb);
    let m = above(m, mc);
    let m = above(m, md);
    let m = above(m, me);
    let m = above(m, mf);
    let m = above(m, mg);
    above(m, mh)
}

// The largest of m and the others, with no branch, one after the other.
fn largest_in_turn(m: f32, loglikes: &[f32]) -> f32
    ensures { result ≡ top m loglikes.now }
{
    let mut max_like = m;
    for g in 0..loglikes.len() {
        max_like = above(max_like, loglikes[g]);
    }
    max_like
}

// The largest of m, which is no NaN, and the others. Parts and joins keep the order: of equal ones
// the first is the answer.
fn largest_of_rest(m: f32, loglikes: &[f32]) -> f32
    requires { is_nan m ≡ false }
    ensures { result ≡ top m loglikes.now }
{
    let h = loglikes.len() / 8;
    let front = largest_of_parts(
        part(h, 0, loglikes),
        part(h, 1, loglikes),
        part(h, 2, loglikes),
        part(h, 3, loglikes),
        part(h, 4, loglikes),
        part(h, 5, loglikes),
        part(h, 6, loglikes),
        part(h, 7, loglikes),
    );
    let so_far = above(m, front);
    largest_in_turn(so_far, behind(h, loglikes))
}

// The largest, a NaN passed over: the last that is above all in front of it. So of equal ones the
// first is the answer.
fn largest(loglikes: &[f32]) -> f32
    ensures { result ≡ max_like loglikes.now }
{
    let mut m = -1.0 / 0.0;
    let mut k = 0;
    let mut rises = 0usize;
    // No `for`: a turn goes on behind the next that is above the largest so far, which is seldom.
    // Where it is often, the rest is gone over with no search.
    while let Some(j) = next_above(m, k, loglikes) {
        m = loglikes[j];
        k = j + 1;
        rises += 1;
        if rises == 16 {
            return largest_of_rest(m, &loglikes[k..]);
        }
    }
    m
}

// The most likely Gaussians, before they are pruned.
fn best(
    loglikes: &[f32],
    num_gselect: usize,
    min_post: f32,
    ln: f32,
    chosen: &mut Chosen<'_>,
) -> usize
    requires places { HasPlaces num_gselect chosen.old }
    requires log { ln ≡ ln_narrow min_post }
    ensures best { posts_in result chosen.new.gauss.now chosen.new.posts.now
        ≡ best_of loglikes.now num_gselect min_post }
    ensures most { result ≤ num_gselect }
    ensures loans { SameChosen chosen.old chosen.new }
{
    let max_like = largest(loglikes);
    if min_post != 0.0 {
        let cutoff = Some(max_like + ln);
        let n = gather(cutoff, max_like, loglikes, num_gselect, chosen);
        if n > 0 {
            return n;
        }
    }
    gather(None, max_like, loglikes, num_gselect, chosen)
}

// Their sum, from -0.0 on.
fn total(posts: &[f32]) -> f32
    ensures { result ≡ sum₃₂ (neg zero₃₂) (length posts.now) (at posts.now) }
{
    posts.iter().sum()
}

// How many are left after pruning, and their total.
#[derive(Clone, Copy)]
struct Left {
    count: usize,
    tot: f32,
}

// The last of the first n are left out while they are below the cutoff, but for the first, and
// taken off the total.
fn prune(n: usize, posts: &[f32], cutoff: f32, tot: f32) -> Left
    requires { n ≤ length posts.now }
    ensures { ((chosen : List ℕ) → n ≤ length chosen
        → (result.count, result.tot) ≡ pruned (posts_in n chosen posts.now) cutoff n tot)
        × (result.count ≤ n) }
{
    let mut count = n;
    let mut left = tot;
    // No `for`: how many are left is the answer.
    while count > 1 {
        let last = posts[count - 1];
        if last < cutoff {
            left -= last;
            count -= 1;
        } else {
            return Left { count, tot: left };
        }
    }
    Left { count, tot: left }
}

// All times v.
fn scale(v: f32, posts: &mut [f32])
    ensures { posts.new ≡ fill (length posts.old) (λ k. at posts.old k *₃₂ v) posts.old }
{
    for p in posts.iter_mut() {
        *p *= v;
    }
}

// Of the first n likelihoods those of at least min_post of their total, renormalised to one; the
// answer is how many they are.
fn renormalize(n: usize, min_post: f32, posts: &mut [f32]) -> usize
    requires { n ≤ length posts.old }
    ensures scaled { (chosen : List ℕ) → n ≤ length chosen
        → posts_in result chosen posts.new ≡ renormalised min_post (posts_in n chosen posts.old) }
    ensures most { result ≤ n }
{
    let tot = total(&posts[..n]);
    let left = prune(n, posts, min_post * tot, tot);
    scale(1.0 / left.tot, &mut posts[..left.count]);
    left.count
}

// The num_gselect most likely Gaussians as posteriors, pruned below min_post of the total,
// renormalised to one. The rooms hold as many as the answer says.
fn select(
    loglikes: &[f32],
    num_gselect: usize,
    min_post: f32,
    ln: f32,
    chosen: &mut Chosen<'_>,
) -> usize
    requires places { HasPlaces num_gselect chosen.old }
    requires log { ln ≡ ln_narrow min_post }
    ensures selected { Selected loglikes.now num_gselect min_post result chosen.new }
    ensures loans { SameChosen chosen.old chosen.new }
{
    let n = best(loglikes, num_gselect, min_post, ln, chosen);
    renormalize(n, min_post, chosen.posts)
}

// How many of the log-likelihoods are NaN: a pass of its own. By index, with no branch.
fn count_nans(loglikes: &[f32]) -> usize
    ensures { result ≡ nan_count loglikes.now }
{
    let mut nans = 0;
    for g in 0..loglikes.len() {
        let l = loglikes[g];
        nans += (l != l) as usize;
    }
    nans
}

/// A selection in lent rooms.
#[derive(Clone, Copy)]
pub struct Selection {
    /// How many posteriors there are.
    pub count: usize,
    /// How many of the log-likelihoods that it was made from were NaN.
    pub nans: usize,
}

/// [`select_posteriors`] where the logarithm of min_post is known: frames of a batch share it.
pub fn select_by(
    loglikes: &[f32],
    num_gselect: usize,
    min_post: f32,
    ln: f32,
    chosen: &mut Chosen<'_>,
) -> Selection
    requires places { HasPlaces num_gselect chosen.old }
    requires log { ln ≡ ln_narrow min_post }
    ensures selected { Selected loglikes.now num_gselect min_post result.count chosen.new }
    ensures nans { result.nans ≡ nan_count loglikes.now }
    ensures loans { SameChosen chosen.old chosen.new }
{
    let count = select(loglikes, num_gselect, min_post, ln, chosen);
    let nans = count_nans(loglikes);
    Selection { count, nans }
}

/// The most likely Gaussians as posteriors, into `chosen`.
pub fn select_posteriors(
    loglikes: &[f32],
    num_gselect: usize,
    min_post: f32,
    chosen: &mut Chosen<'_>,
) -> Selection
    requires { HasPlaces num_gselect chosen.old }
    ensures selected { Selected loglikes.now num_gselect min_post result.count chosen.new }
    ensures nans { result.nans ≡ nan_count loglikes.now }
    ensures loans { SameChosen chosen.old chosen.new }
{
    let ln = floats::ln_f32(min_post);
    select_by(loglikes, num_gselect, min_post, ln, chosen)
}
