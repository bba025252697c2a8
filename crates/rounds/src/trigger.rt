//! The round of an utterance, which is seven calls in their order: forget, push, note, weigh,
//! change, fetch, find.

ghost use Rattle.std.specs.Prelude.{◌≡◌, ◌<◌, false, length, IfErr};
ghost use Rattle.definition.specs.Lent.{tables_in};
ghost use Rattle.stream.specs.Stream.{record_of, rings_of, rooms_of, Rest, SameRooms};
ghost use Rattle.rounds.specs.Inner.SilenceWeightingRooms.{rooms_in, SameLoans};
ghost use Rattle.rounds.specs.Round.{Bench, bench, with_rings, with_fetch, Round, round_from, ended, after, forgets, cut, pushed, push_all, frame_length, pushes, last_steps, round as round_of, worked};
ghost use Rattle.rounds.specs.Halts.{step_in, refusal_in};
ghost use Rattle.rounds.specs.Lent.{utterance_of, voices_of};

use crate::nearest_voice;
use crate::silence_weighting::{LentPath, SilenceRooms};
use crate::trigger_steps::{self, Halt, RoundEnd, Step};
use definition::{LentTables, SilenceWeighting};
use stream::{Stream, ivector_stream};

/// What was said.
#[derive(Clone, Copy)]
pub struct LentUtterance<'a> {
    /// Its first input frame.
    pub start: usize,
    /// Its frames, one after the other, `base_dim` numbers each.
    pub numbers: &'a [f32],
    /// The segments of the decoder's best path.
    pub path: LentPath<'a>,
}

/// The enrolled voices, as [`nearest_voice::nearest_voice`] takes them.
#[derive(Clone, Copy)]
pub struct LentVoices<'a> {
    pub count: usize,
    /// `count` vectors as f32 bits, one after the other.
    pub enrolled: &'a [u32],
    /// The largest distance that is near enough.
    pub limit: f32,
}

/// What a round returns: how it ended, and how many changes the weighing gave.
#[derive(Clone, Copy, Debug, PartialEq)]
pub struct TriggerRound {
    pub result: Result<RoundEnd, Halt>,
    pub changes: usize,
}

// Pushes the frames of an utterance, up to the first that is refused. A last frame that is cut
// short is pushed as it stands.
fn push_all(stream: &mut Stream<'_>, numbers: &[f32]) -> Result<(), Halt>
    ensures pushes { pushed (refusal_in result) (record_of stream.new) (rings_of stream.new)
        ≡ push_all (record_of stream.old) (rings_of stream.old)
        (cut (frame_length (record_of stream.old)) numbers.now) }
    ensures halt { IfErr result (λ h. (0 < h.refusal) × (h.step ≡ 2)) }
    ensures rest { Rest stream.old stream.new }
{
    // at least 1, as `chunks` asks; a push refuses a record of dimension 0
    let n = stream.record.info.dims.base_dim.max(1);
    for frame in numbers.chunks(n) {
        let call = stream.push(frame);
        trigger_steps::at_step(Step::Push, call)?;
    }
    Ok(())
}

// Steps 1 and 2: forget at the start, push.
fn hear(stream: &mut Stream<'_>, start: usize, numbers: &[f32]) -> Result<(), Halt>
    ensures steps { (b : Bench) (next : Bench → Round) →
        after 1 (forgets start (with_rings b (record_of stream.old) (rings_of stream.old)))
        (λ c. after 2 (pushes numbers.now c) next)
        ≡ ended (step_in result) (refusal_in result)
        (with_rings b (record_of stream.new) (rings_of stream.new)) next }
    ensures halt { IfErr result (λ h. 0 < h.refusal) }
    ensures rest { Rest stream.old stream.new }
{
    let forgotten = stream.forget(start);
    trigger_steps::at_step(Step::Forget, forgotten)?;
    push_all(stream, numbers)
}

// Steps 6 and 7: fetch the last ready frame, find the nearest voice. With no ready frame the round
// ends before them.
fn decide(
    stream: &mut Stream<'_>,
    tables: LentTables<'_>,
    out: &mut [u32],
    voices: LentVoices<'_>,
) -> Result<RoundEnd, Halt>
    ensures steps { (b : Bench) →
        round_from result (with_fetch b (record_of stream.new) (rooms_of stream.new) out.new)
        ≡ last_steps (tables_in tables.entry) (length stream.old.scratch.now)
        (voices_of voices.entry)
        (with_fetch b (record_of stream.old) (rooms_of stream.old) out.old) }
    ensures scratch { worked result ≡ false → stream.new.scratch.now ≡ stream.old.scratch.now }
    ensures loans { SameRooms stream.old stream.new }
{
    let ready = ivector_stream::num_frames_ready(*stream.record);
    if ready == 0 {
        return Ok(RoundEnd::NoVector);
    }
    let fetched = stream.fetch(ready - 1, tables, out);
    trigger_steps::at_step(Step::Fetch, fetched)?;
    let dim = ivector_stream::ivector_dim(*stream.record);
    let found = nearest_voice::nearest_voice(dim, out, voices.count, voices.enrolled, voices.limit);
    trigger_steps::result_of(definition::numbered(found))
}

// The seven steps, on a stream and a table that each changes in place. A refusal ends them; what was
// done remains done.
fn go_through(
    stream: &mut Stream<'_>,
    silence: &mut SilenceWeighting,
    changes: &mut usize,
    utterance: LentUtterance<'_>,
    tables: LentTables<'_>,
    silence_phones: &[i32],
    table_rooms: &mut SilenceRooms<'_>,
    delta_frames: &mut [usize],
    delta_weights: &mut [f32],
    out: &mut [u32],
    voices: LentVoices<'_>,
) -> Result<RoundEnd, Halt>
    ensures round { changes.old ≡ 0 →
        round_from result
        (bench (record_of stream.new) (rooms_of stream.new) silence.new (rooms_in table_rooms.new)
        delta_frames.new delta_weights.new changes.new out.new)
        ≡ round_of (tables_in tables.entry) (length stream.old.scratch.now) silence_phones.now
        (utterance_of utterance.entry) (voices_of voices.entry)
        (bench (record_of stream.old) (rooms_of stream.old) silence.old (rooms_in table_rooms.old)
        delta_frames.old delta_weights.old 0 out.old) }
    ensures scratch { worked result ≡ false → stream.new.scratch.now ≡ stream.old.scratch.now }
    ensures rooms { SameRooms stream.old stream.new }
    ensures loans { SameLoans table_rooms.old table_rooms.new }
{
    hear(stream, utterance.start, utterance.numbers)?;
    let ready = ivector_stream::num_frames_ready(*stream.record);
    let given = trigger_steps::weigh_path(
        silence,
        silence_phones,
        table_rooms,
        utterance.start,
        utterance.path,
        ready,
        delta_frames,
        delta_weights,
    )?;
    *changes = given;
    // the front of each list: lists that C lends may be longer
    let changed = stream.change(&delta_frames[..given], &delta_weights[..given]);
    trigger_steps::at_step(Step::Change, changed)?;
    decide(stream, tables, out, voices)
}

/// The round of an utterance: forget at its start, push its frames, note the path of its segments,
/// weigh, change, fetch the last ready frame, find the nearest voice.
///
/// A last frame that is cut short is pushed as it stands. The first `changes` places of the two
/// lists hold what the weighing gave; `out` holds the vector's f32 bits once the fetch was taken.
/// The stream's scratch is free once the fetch was taken.
///
/// # Errors
///
/// The first refusal ends the round: its number and the step's, 1 to 7. What was done remains done.
pub fn round(
    stream: &mut Stream<'_>,
    silence: &mut SilenceWeighting,
    utterance: LentUtterance<'_>,
    tables: LentTables<'_>,
    silence_phones: &[i32],
    table_rooms: &mut SilenceRooms<'_>,
    delta_frames: &mut [usize],
    delta_weights: &mut [f32],
    out: &mut [u32],
    voices: LentVoices<'_>,
) -> TriggerRound
    ensures round { round_from result.result
        (bench (record_of stream.new) (rooms_of stream.new) silence.new (rooms_in table_rooms.new)
        delta_frames.new delta_weights.new result.changes out.new)
        ≡ round_of (tables_in tables.entry) (length stream.old.scratch.now) silence_phones.now
        (utterance_of utterance.entry) (voices_of voices.entry)
        (bench (record_of stream.old) (rooms_of stream.old) silence.old (rooms_in table_rooms.old)
        delta_frames.old delta_weights.old 0 out.old) }
    ensures scratch { worked result.result ≡ false → stream.new.scratch.now ≡ stream.old.scratch.now }
    ensures rooms { SameRooms stream.old stream.new }
    ensures loans { SameLoans table_rooms.old table_rooms.new }
{
    let mut changes = 0;
    let result = go_through(
        stream,
        silence,
        &mut changes,
        utterance,
        tables,
        silence_phones,
        table_rooms,
        delta_frames,
        delta_weights,
        out,
        voices,
    );
    TriggerRound { result, changes }
}
