//! The calls of a load one by one: the next drawn call, as a call of a list, and the tally of calls
//! and answers.

ghost use Rattle.std.specs.Prelude.{◌≡◌, ◌%◌, ◌≤◌, ◌<◌, length, get_or};
ghost use Rattle.lists.specs.Turns.{decoded};
ghost use Rattle.lists.specs.Draws.{draw as draw_of, drawing, call_in};
ghost use Rattle.lists.specs.Inner.TryNotes.{counted, tally, noted};

use crate::run_calls::{CodedCall, Kind};
use crate::try_load;
use definition::StreamAnswer;

/// Draws the next call. `lists` has room for one frame number, `samples` for the `dim` numbers of a
/// frame.
pub fn draw_call(
    dim: usize,
    state: u32,
    pushes: usize,
    lists: &mut [usize],
    samples: &mut [f32],
) -> CodedCall
    requires { (0 < dim) × (dim ≤ length samples.old) × (0 < length lists.old)
        × (pushes ≤ 10000) }
    ensures { (decoded result lists.new samples.new 1 ≡ call_in dim (drawing state pushes))
        × (result.kind ≡ draw_of state % 5) }
{
    let s = try_load::draw(state);
    let drawn = s % 5;
    let frame = try_load::frame_of(drawn, s, pushes);
    let kind = drawn as u8;
    match Kind::from(kind) {
        Kind::Push => {
            try_load::put_numbers(dim, drawn, s, samples, 0);
            CodedCall {
                kind,
                b: dim,
                ..CodedCall::default()
            }
        }
        Kind::Finish => CodedCall {
            kind,
            ..CodedCall::default()
        },
        Kind::Change => {
            lists[0] = frame;
            samples[0] = try_load::weight_of(drawn, s);
            CodedCall {
                kind,
                b: 1,
                d: 1,
                ..CodedCall::default()
            }
        }
        Kind::Forget => CodedCall {
            kind,
            a: frame,
            ..CodedCall::default()
        },
        Kind::Fetch => CodedCall {
            kind,
            a: frame,
            c: 1,
            ..CodedCall::default()
        },
        // it is never drawn
        Kind::Window => CodedCall::default(),
    }
}

// Adds one at place k, where there is one.
fn count(counts: &mut [usize], k: usize)
    requires { get_or counts.old k 0 < 10000 }
    ensures { counts.new ≡ counted counts.old k }
{
    if k < counts.len() {
        counts[k] += 1;
    }
}

/// Counts a call by its kind and its answer by its refusal, and returns the greatest number of
/// frames held so far.
#[tactic(auto, unfolding(crate::specs::Inner::TryNotes::noted))]
pub fn note(
    calls: &mut [usize],
    refusals: &mut [usize],
    most: usize,
    kind: u8,
    a: StreamAnswer,
) -> usize
    requires { (get_or calls.old kind 0 < 10000) × (get_or refusals.old a.refusal 0 < 10000) }
    ensures { tally calls.new refusals.new result
        ≡ noted (tally calls.old refusals.old most) kind a }
{
    count(calls, usize::from(kind));
    count(refusals, a.refusal);
    most.max(a.frames_held)
}
