//! The trigger: the round of an utterance.

ghost use Rattle.std.specs.Prelude.{◌≡◌, false, length};
ghost use Rattle.definition.specs.Model.{Tables, tables_from};
ghost use Rattle.definition.specs.Silence.{table_rooms};
ghost use Rattle.program.specs.Rooms.{rings_from, estimate_from, Rooms, rooms_from};
ghost use Rattle.rounds.specs.Round.{Utterance, Voices, Bench, bench, Round, round as round_of, worked, round_outcome};

use definition::{IvectorStream, LentTables, SilenceWeighting};
use rounds::silence_weighting::{LentPath, SilenceRooms};
use rounds::trigger::{self, LentUtterance, LentVoices};
use rounds::trigger_steps::{self, RoundOutcome};
use stream::Stream;

/// The answer of a round: how it ended, how many changes the weighing gave, and the two records to
/// go on with.
#[repr(C)]
#[derive(Clone, Copy, Debug, PartialEq)]
pub struct RoundAnswer {
    pub outcome: RoundOutcome,
    pub changes: usize,
    pub stream: IvectorStream,
    pub silence: SilenceWeighting,
}

/// The round of an utterance: forget, push, note, weigh, change, fetch, find. The two records are
/// given and returned by value: go on with those in the answer, also after a refusal. See
/// [`trigger::round`].
#[unsafe(no_mangle)]
pub extern "C" fn shofrakin_round(
    s: IvectorStream,
    silence: SilenceWeighting,
    start: usize,
    numbers: &[f32],
    phones: &[i32],
    starts: &[usize],
    ends: &[usize],
    gconsts: &[f32],
    means_invvars_t: &[f32],
    inv_vars_t: &[f32],
    sigma_inv_m: &[f64],
    u: &[f64],
    lda_t: &[f32],
    lda_offset: &[f32],
    global_mean_stats: &[f64],
    frames: &mut [f32],
    rows: &mut [f64],
    waiting_frames: &mut [usize],
    waiting_weights: &mut [f32],
    cmvn_stats: &mut [f64],
    linear: &mut [f64],
    quadratic: &mut [f64],
    current: &mut [f64],
    scratch: &mut [f64],
    silence_phones: &[i32],
    known: &mut [bool],
    is_silence: &mut [bool],
    current_weight: &mut [f32],
    delta_frames: &mut [usize],
    delta_weights: &mut [f32],
    out: &mut [u32],
    voices: usize,
    enrolled: &[u32],
    limit: f32,
) -> RoundAnswer
    ensures { (
        let t : Tables = tables_from gconsts.now means_invvars_t.now inv_vars_t.now sigma_inv_m.now
        u.now lda_t.now lda_offset.now global_mean_stats.now in
        let z : Rooms = rooms_from
        (rings_from frames.old rows.old waiting_frames.old waiting_weights.old)
        (estimate_from cmvn_stats.old linear.old quadratic.old current.old) in
        let y : Rooms = rooms_from
        (rings_from frames.new rows.new waiting_frames.new waiting_weights.new)
        (estimate_from cmvn_stats.new linear.new quadratic.new current.new) in
        let w : Utterance = record {
          start = start;
          numbers = numbers.now;
          phones = phones.now;
          starts = starts.now;
          ends = ends.now;
        } in
        let v : Voices = record { count = voices; enrolled = enrolled.now; limit = limit } in
        let b : Bench = bench s z silence (table_rooms known.old is_silence.old current_weight.old)
        delta_frames.old delta_weights.old 0 out.old in
        let x : Round = round_of t (length scratch.old) silence_phones.now w v b in
        (result.outcome ≡ round_outcome x.result)
        × (bench result.stream y result.silence
        (table_rooms known.new is_silence.new current_weight.new) delta_frames.new
        delta_weights.new result.changes out.new ≡ x.bench)
        × (worked x.result ≡ false → scratch.new ≡ scratch.old)) }
{
    let utterance = LentUtterance {
        start,
        numbers,
        path: LentPath {
            phones,
            starts,
            ends,
        },
    };
    let tables = LentTables {
        gconsts,
        means_invvars_t,
        inv_vars_t,
        sigma_inv_m,
        u,
        lda_t,
        lda_offset,
        global_mean_stats,
    };
    let mut record = s;
    let mut weighting = silence;
    let mut stream = Stream {
        record: &mut record,
        frames,
        rows,
        waiting_frames,
        waiting_weights,
        cmvn_stats,
        linear,
        quadratic,
        current,
        scratch,
    };
    let mut rooms = SilenceRooms {
        known,
        is_silence,
        current_weight,
    };
    let enrolled = LentVoices {
        count: voices,
        enrolled,
        limit,
    };
    let done = trigger::round(
        &mut stream,
        &mut weighting,
        utterance,
        tables,
        silence_phones,
        &mut rooms,
        delta_frames,
        delta_weights,
        out,
        enrolled,
    );
    RoundAnswer {
        outcome: trigger_steps::round_outcome(done.result),
        changes: done.changes,
        stream: record,
        silence: weighting,
    }
}
