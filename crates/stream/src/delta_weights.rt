//! The weight changes of a stream that wait for their frames: frame numbers in ascending order, and
//! beside each by how much its weight changes. The first n places of the two slices are in use. A
//! change waits until a fetch brings in its frame.

ghost use Rattle.std.specs.Prelude.{◌≡◌, true, false, ◌+◌, ◌-◌, ◌<◌, ◌≤◌, max, length, get_or, take, drop, leb};
ghost use mathlib.Core.List.{◌∷◌, foldl};
ghost use Rattle.loops.specs.Lists.{build, those, any_of};
ghost use Rattle.loops.specs.Ring.{put};
ghost use Rattle.floats.specs.Operators.{at};
ghost use Rattle.definition.specs.Changes.{insert_change, changed, merged};
ghost use Rattle.definition.specs.Stream.{rising};
ghost use Rattle.program.specs.Rooms.{waiting_in};
ghost use Rattle.stream.specs.Waiting.{waiting_changes, InOrder, Holds};
ghost use Rattle.stream.specs.Inner.DeltaWeights.{inserted_to};

use definition::LentWaiting;

/// How many of `frames`, which ascend, are up to frame `f`. Searched from the back, where changes
/// mostly go.
pub fn up_to(frames: &[usize], f: usize) -> usize
    requires { rising 0 frames.now ≡ true }
    ensures { (result ≡ length (those (λ g. leb g f) frames.now)) × (result ≤ length frames.now) }
{
    frames
        .iter()
        .rposition(|&g| g <= f)
        .map_or(0, |last| last + 1)
}

// Moves places k to n - 1 up by one. Not inlined: its loops would take the walk's registers.
#[inline(never)]
fn open_place(frames: &mut [usize], weights: &mut [f32], k: usize, n: usize)
    requires place { k ≤ n }
    requires frames { n < length frames.old }
    requires weights { n < length weights.old }
    ensures frames { frames.new
        ≡ put (k + 1) (build (n - k) (λ j. get_or frames.old (k + j) 0)) frames.old }
    ensures weights { weights.new
        ≡ put (k + 1) (build (n - k) (λ j. at weights.old (k + j))) weights.old }
    ensures frames_long { length frames.new ≡ length frames.old }
    ensures weights_long { length weights.new ≡ length weights.old }
{
    frames.copy_within(k..n, k + 1);
    weights.copy_within(k..n, k + 1);
}

/// Inserts one change behind those of its own frame and of lower ones. `n` changes wait before the
/// call, n + 1 after it.
pub fn insert_change(frames: &mut [usize], weights: &mut [f32], n: usize, frame: usize, weight: f32)
    requires frames { n < length frames.old }
    requires weights { n < length weights.old }
    requires order { InOrder n frames.old }
    ensures { Holds (insert_change (waiting_in n frames.old weights.old) (frame, weight))
        frames.old weights.old frames.new weights.new }
{
    let k = up_to(&frames[..n], frame);
    open_place(frames, weights, k, n);
    frames[k] = frame;
    weights[k] = weight;
}

// Inserts changes in the order given. Not inlined: its numbers would take its caller's registers.
#[inline(never)]
fn insert_changes(
    frames: &mut [usize],
    weights: &mut [f32],
    n: usize,
    delta_frames: &[usize],
    delta_weights: &[f32],
)
    requires frames { n + length delta_frames.now ≤ length frames.old }
    requires weights { n + length delta_frames.now ≤ length weights.old }
    requires paired { length delta_weights.now ≡ length delta_frames.now }
    requires order { InOrder n frames.old }
    ensures { Holds (inserted_to (length delta_frames.now) delta_frames.now delta_weights.now
        (waiting_in n frames.old weights.old))
        frames.old weights.old frames.new weights.new }
{
    let m = delta_frames.len();
    // by index: i is a place of both lists and counts the changes that wait
    for i in 0..m {
        insert_change(frames, weights, n + i, delta_frames[i], delta_weights[i]);
    }
}

// One more than the highest frame ever changed.
fn past_highest_of(past_highest: usize, delta_frames: &[usize]) -> usize
    requires { any_of (leb 1000000000) delta_frames.now ≡ false }
    ensures { result ≡ foldl (λ n f. max n (f + 1)) past_highest delta_frames.now }
{
    let mut past = past_highest;
    for &f in delta_frames {
        past = past.max(f + 1);
    }
    past
}

/// Inserts the changes of one call into the `n` that wait. It returns one more than the highest
/// frame ever changed. `delta_frames` and `delta_weights` are of one length.
pub fn update_frame_weights(
    frames: &mut [usize],
    weights: &mut [f32],
    n: usize,
    past_highest: usize,
    delta_frames: &[usize],
    delta_weights: &[f32],
) -> usize
    requires frames { n + length delta_frames.now ≤ length frames.old }
    requires weights { n + length delta_frames.now ≤ length weights.old }
    requires paired { length delta_weights.now ≡ length delta_frames.now }
    requires order { InOrder n frames.old }
    requires bound { any_of (leb 1000000000) delta_frames.now ≡ false }
    ensures changes { Holds (changed (waiting_changes n past_highest frames.old weights.old)
        delta_frames.now delta_weights.now).waiting
        frames.old weights.old frames.new weights.new }
    ensures past_highest { result
        ≡ (changed (waiting_changes n past_highest frames.old weights.old)
        delta_frames.now delta_weights.now).past_highest }
{
    insert_changes(frames, weights, n, delta_frames, delta_weights);
    past_highest_of(past_highest, delta_frames)
}

/// Removes the first `k` of the `n` changes that wait.
pub fn remove_first(frames: &mut [usize], weights: &mut [f32], n: usize, k: usize)
    requires within { k ≤ n }
    requires frames { n ≤ length frames.old }
    requires weights { n ≤ length weights.old }
    ensures { Holds (drop k (waiting_in n frames.old weights.old))
        frames.old weights.old frames.new weights.new }
{
    frames.copy_within(k..n, 0);
    weights.copy_within(k..n, 0);
}

/// The changes of one frame: the place after the last of them, and the sum of their weights.
#[derive(Clone, Copy, Debug, PartialEq)]
pub struct Group {
    pub end: usize,
    pub weight: f32,
}

/// The changes of one frame from change `j` on, summed in their order. `n` changes wait.
pub fn sum_group(waiting: LentWaiting<'_>, n: usize, j: usize) -> Group
    requires within { j < n }
    requires frames { n ≤ length waiting.frames.now }
    requires weights { n ≤ length waiting.weights.now }
    ensures further { j < result.end }
    ensures within { result.end ≤ n }
    ensures sum { merged (drop j (waiting_in n waiting.entry.frames.now waiting.entry.weights.now))
        ≡ (get_or waiting.entry.frames.now j 0, result.weight)
        ∷ merged (drop result.end
        (waiting_in n waiting.entry.frames.now waiting.entry.weights.now)) }
{
    let frame = waiting.frames[j];
    let mut weight = waiting.weights[j];
    // by index: the first place of another frame is the answer
    for end in j + 1..n {
        if waiting.frames[end] != frame {
            return Group { end, weight };
        }
        weight += waiting.weights[end];
    }
    Group { end: n, weight }
}
