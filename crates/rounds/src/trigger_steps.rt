//! Steps 3 and 4 of a round, how a step's refusal ends it, and the records that say so.

ghost use Rattle.std.specs.Prelude.{◌≡◌, List, ◌<◌, ◌≤◌, length, Float, IfOk, IfErr};
ghost use Rattle.rounds.specs.Inner.SilenceWeightingRooms.{rooms_in, SameLoans};
ghost use Rattle.rounds.specs.Round.{Utterance, Bench, with_table, Round, ended, after, decoded as decoded_of, notes, ready as ready_of, weighs, result_of, round_outcome};
ghost use Rattle.rounds.specs.Halts.{number_of, halted, step_in, refusal_in, given_in};

use crate::nearest_voice::Voice;
use crate::silence_weighting::{self, LentPath, SilenceRooms};
use definition::{DecoderFrame, InputFrame, Refusal, SilenceWeighting};

/// How a round ends that was not refused.
#[derive(Clone, Copy, Debug, PartialEq)]
pub enum RoundEnd {
    /// It went through all its steps: the nearest voice, `None` where nobody is near enough.
    Full(Option<Voice>),
    /// No frame is ready, so that there is no vector.
    NoVector,
}

/// How a round ends, as the record that C gets. Without a refusal, a round that is not full has no
/// vector.
#[repr(C)]
#[derive(Clone, Copy, Debug, Default, PartialEq)]
pub struct RoundOutcome {
    /// The refusal's number, 0 where there is none.
    pub refusal: usize,
    /// The number of the step that was refused, 0 where there is none.
    pub step: usize,
    /// Whether the round went through all its steps.
    pub full: bool,
    /// Whether a voice is near enough.
    pub found: bool,
    /// Whose, from 0.
    pub index: usize,
    /// Its squared distance.
    pub distance: f32,
}

/// A step of a round.
#[derive(Clone, Copy, Debug, PartialEq, Eq, Hash)]
pub enum Step {
    Forget = 1,
    Push = 2,
    Note = 3,
    Weigh = 4,
    Change = 5,
    Fetch = 6,
    Find = 7,
}

impl Step {
    /// The number that the C interface gives.
    pub fn number(self) -> usize
        ensures { result ≡ number_of self }
    {
        self as usize
    }
}

/// Where a refusal ended a round, by its number and the step's.
#[derive(Clone, Copy, Debug, PartialEq, Eq)]
pub struct Halt {
    pub refusal: usize,
    pub step: usize,
}

/// A refusal of this step's call ends the round there.
pub fn at_step<T>(step: Step, r: Result<T, Refusal>) -> Result<T, Halt>
    ensures { result ≡ halted step r }
{
    match r {
        Ok(given) => Ok(given),
        Err(e) => Err(Halt {
            refusal: e.number(),
            step: step.number(),
        }),
    }
}

// How many decoder frames the path reaches: the highest end.
#[tactic(auto, unfolding(crate::specs::Round::decoded))]
fn decoded(ends: &[usize]) -> usize
    ensures { result ≡ decoded_of ends.now }
{
    ends.iter().fold(0, |last, &end| last.max(end))
}

/// Steps 3 and 4: note the path and weigh. It returns how many changes that gave. `ready` is the
/// stream's ready count. The changes stand in the first places of the two lists.
pub fn weigh_path(
    silence: &mut SilenceWeighting,
    silence_phones: &[i32],
    rooms: &mut SilenceRooms<'_>,
    start: usize,
    path: LentPath<'_>,
    ready: usize,
    delta_frames: &mut [usize],
    delta_weights: &mut [f32],
) -> Result<usize, Halt>
    ensures frames { IfOk result (λ n. n ≤ length delta_frames.old) }
    ensures weights { IfOk result (λ n. n ≤ length delta_weights.old) }
    ensures halt { IfErr result (λ h. 0 < h.refusal) }
    ensures steps { (b : Bench) (xs : List Float) (next : Bench → Round) →
        let u : Utterance = record {
          start = start;
          numbers = xs;
          phones = path.entry.phones.now;
          starts = path.entry.starts.now;
          ends = path.entry.ends.now;
        } in
        ready_of b.stream ≡ ready →
        after 3 (notes silence_phones.now u
        (with_table b silence.old (rooms_in rooms.old) delta_frames.old delta_weights.old 0))
        (λ c. after 4 (weighs (ready_of c.stream) start c) next)
        ≡ ended (step_in result) (refusal_in result)
        (with_table b silence.new (rooms_in rooms.new) delta_frames.new delta_weights.new
        (given_in result)) next }
    ensures loans { SameLoans rooms.old rooms.new }
{
    let frames = DecoderFrame(decoded(path.ends));
    let noted = silence_weighting::compute_current_traceback(
        silence,
        silence_phones,
        rooms,
        path,
        frames,
    );
    at_step(Step::Note, noted)?;
    let weighed = silence_weighting::get_delta_weights(
        silence,
        rooms,
        InputFrame(ready),
        InputFrame(start),
        delta_frames,
        delta_weights,
    );
    at_step(Step::Weigh, weighed)
}

/// The nearest voice as the end of a full round. A refusal, by its number, is one of step 7.
#[tactic(auto, unfolding(crate::specs::Round::result_of))]
pub fn result_of(v: Result<Option<Voice>, usize>) -> Result<RoundEnd, Halt>
    ensures { result ≡ result_of v }
{
    match v {
        Ok(voice) => Ok(RoundEnd::Full(voice)),
        Err(refusal) => Err(Halt {
            refusal,
            step: Step::Find.number(),
        }),
    }
}

/// The record that C gets.
#[tactic(auto, unfolding(crate::specs::Round::round_outcome))]
pub fn round_outcome(a: Result<RoundEnd, Halt>) -> RoundOutcome
    ensures { result ≡ round_outcome a }
{
    match a {
        Ok(RoundEnd::Full(Some(voice))) => RoundOutcome {
            full: true,
            found: true,
            index: voice.index,
            distance: voice.distance,
            ..RoundOutcome::default()
        },
        Ok(RoundEnd::Full(None)) => RoundOutcome {
            full: true,
            ..RoundOutcome::default()
        },
        Ok(RoundEnd::NoVector) => RoundOutcome::default(),
        Err(halt) => RoundOutcome {
            refusal: halt.refusal,
            step: halt.step,
            ..RoundOutcome::default()
        },
    }
}
