//! Which frames a fetch brings into the statistics, and by which weights.

ghost use Rattle.std.specs.Prelude.{◌≡◌, ◌∷◌, ◌<◌, ◌≤◌, false};
ghost use Rattle.floats.specs.Ln.{ln_narrow};
ghost use Rattle.gmm.specs.Batch.{Logged};
ghost use Rattle.stream.specs.Inner.IvectorBatch.{places_of, frame_in, left_of, batch_in, Lined, Held, HeldWhereTaken};

use crate::delta_weights;
use definition::{FrameWeight, IvectorOptions, LentWaiting};
use gmm::diag_gmm;

/// What a fetch brings in. Before any change call: the frames from `next` to before `end`. After
/// one: the frames of the first `changes` changes that wait.
#[derive(Clone, Copy)]
pub struct Intake<'a> {
    /// The frames pushed so far.
    pub accepted: usize,
    /// Whether a change call was taken.
    pub called: bool,
    pub next: usize,
    pub end: usize,
    /// How many of the waiting changes the batch takes.
    pub changes: usize,
    pub waiting: LentWaiting<'a>,
}

/// A frame of a batch.
#[derive(Clone, Copy)]
pub struct BatchFrame {
    pub frame: usize,
    pub weight: FrameWeight,
    /// The logarithm of the weight's prune floor.
    pub ln: f32,
    /// The place after it in the batch.
    pub end: usize,
}

// The logarithm of a weight's prune floor; 0 for a skipped frame, where nobody reads it.
fn floor_log(weight: FrameWeight) -> f32
    ensures { Logged weight result }
{
    match weight {
        FrameWeight::Skipped => 0.0,
        FrameWeight::Weighed(floor, _) => floats::ln_f32(floor),
    }
}

impl<'a> Intake<'a> {
    /// How many places the batch has: one for each frame, or, after a change call, one for each
    /// change.
    pub fn places(&self) -> usize
        requires { self.now.called ≡ false → self.now.next ≤ self.now.end }
        ensures { result ≡ places_of self.now }
    {
        if self.called {
            return self.changes;
        }
        self.end - self.next
    }

    /// The frame at place `j`. Before any change call: frame `next + j`, unweighted. After one: the
    /// frame of change `j`, weighed by the sum of its changes. `ln` is the logarithm of `min_post`,
    /// the floor of every unweighted frame.
    pub fn frame_at(&self, o: IvectorOptions, ln: f32, places: usize, j: usize) -> BatchFrame
        requires within { j < places }
        requires lined { Lined places self.now }
        requires near { frame_in self.now j < 1000000000 }
        requires log { ln ≡ ln_narrow o.min_post }
        ensures frame { result.frame ≡ frame_in self.now j }
        ensures further { j < result.end }
        ensures within { result.end ≤ places }
        ensures left { left_of o self.now places j
            ≡ (result.frame, result.weight) ∷ left_of o self.now places result.end }
        ensures log { Logged result.weight result.ln }
    {
        if self.called {
            let group = delta_weights::sum_group(self.waiting, places, j);
            let weight = diag_gmm::weighed(o, group.weight);
            let own = floor_log(weight);
            return BatchFrame {
                frame: self.waiting.frames[j],
                weight,
                ln: own,
                end: group.end,
            };
        }
        let weight = diag_gmm::unweighted(o);
        BatchFrame {
            frame: self.next + j,
            weight,
            ln,
            end: j + 1,
        }
    }

    /// The same batch, with no frame named from `next` on where it takes none: so `next` and `end`
    /// are in order and there, whatever they were.
    pub fn taken(&self) -> Intake<'a>
        ensures held { (o : IvectorOptions) → HeldWhereTaken o self.now → Held o result }
        ensures batch { (o : IvectorOptions) → batch_in o result ≡ batch_in o self.now }
        ensures accepted { result.accepted ≡ self.now.accepted }
        ensures waiting { result.waiting ≡ self.now.waiting }
    {
        if self.called || self.end <= self.next {
            return Intake {
                next: 0,
                end: 0,
                ..*self
            };
        }
        *self
    }
}
