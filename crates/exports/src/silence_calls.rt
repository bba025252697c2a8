//! A silence table, and whose voice it is.

ghost use Rattle.std.specs.Prelude.{◌≡◌, [], length};
ghost use Rattle.definition.specs.Silence.{TableRooms, table_rooms, new_table, active, compute_current_traceback, get_delta_weights, table_call, table_done};
ghost use Rattle.rounds.specs.Voice.{nearest_voice, voice_answer};
ghost use Rattle.answers.specs.Answers.{new_table_answer};
ghost use Rattle.exports.specs.Answers.{counted};

use answers::NewTableAnswer;
use definition::{DecoderFrame, InputFrame, SilenceWeighting, number_or_0};
use rounds::nearest_voice::{self, VoiceAnswer};
use rounds::silence_weighting::{self, LentPath, SilenceRooms};

/// The answer of a call on a silence table: the refusal, and how many changes it gives.
#[repr(C)]
#[derive(Clone, Copy)]
pub struct SilenceCounts {
    pub refusal: usize,
    pub changes: usize,
}

// ---- the silence table

/// A silence table without frames, for three slices of `table` places each. Refuses with 9. See
/// [`silence_weighting::new`].
#[unsafe(no_mangle)]
pub extern "C" fn shofrakin_new_silence_weighting(
    silence_phones: &[i32],
    silence_weight: f32,
    subsampling: usize,
    table: usize,
) -> NewTableAnswer
    ensures { result ≡ new_table_answer
        (new_table (length silence_phones.now) silence_weight subsampling table) }
{
    let a = silence_weighting::new(silence_phones, silence_weight, subsampling, table);
    NewTableAnswer::from(a)
}

/// Whether the weighting changes anything: there are phones, and the weight is not 1.
#[unsafe(no_mangle)]
pub extern "C" fn shofrakin_silence_active(s: &SilenceWeighting) -> bool
    ensures { result ≡ active s.now }
{
    silence_weighting::active(*s)
}

/// Records which of the decoded frames are silence, from the best path's segments. Refuses with 10,
/// 23 and 24. See [`silence_weighting::compute_current_traceback`].
#[unsafe(no_mangle)]
pub extern "C" fn shofrakin_compute_current_traceback(
    s: &mut SilenceWeighting,
    silence_phones: &[i32],
    known: &mut [bool],
    is_silence: &mut [bool],
    current_weight: &mut [f32],
    segment_phones: &[i32],
    starts: &[usize],
    ends: &[usize],
    num_frames_decoded: DecoderFrame,
) -> SilenceCounts
    ensures { (
        let s₀ : SilenceWeighting = s.old in
        let z : TableRooms = table_rooms known.old is_silence.old current_weight.old in
        table_call (counted result s.new)
        (table_rooms known.new is_silence.new current_weight.new) [] []
        ≡ table_done s₀ z [] []
        (compute_current_traceback s₀ z silence_phones.now segment_phones.now
        starts.now ends.now num_frames_decoded)) }
{
    let mut rooms = SilenceRooms {
        known,
        is_silence,
        current_weight,
    };
    let path = LentPath {
        phones: segment_phones,
        starts,
        ends,
    };
    let noted = silence_weighting::compute_current_traceback(
        s,
        silence_phones,
        &mut rooms,
        path,
        num_frames_decoded,
    );
    SilenceCounts {
        refusal: number_or_0(noted),
        changes: 0,
    }
}

/// The changes of weight up to `num_frames_ready`, by input frame, in the first places of the two
/// lists. They are not given again. Refuses with 10, 23 and 24. See
/// [`silence_weighting::get_delta_weights`].
#[unsafe(no_mangle)]
pub extern "C" fn shofrakin_get_delta_weights(
    s: &mut SilenceWeighting,
    known: &mut [bool],
    is_silence: &mut [bool],
    current_weight: &mut [f32],
    num_frames_ready: InputFrame,
    first_decoder_frame: InputFrame,
    frames: &mut [usize],
    weights: &mut [f32],
) -> SilenceCounts
    ensures { (
        let s₀ : SilenceWeighting = s.old in
        let z : TableRooms = table_rooms known.old is_silence.old current_weight.old in
        table_call (counted result s.new)
        (table_rooms known.new is_silence.new current_weight.new) frames.new weights.new
        ≡ table_done s₀ z frames.old weights.old
        (get_delta_weights s₀ z num_frames_ready first_decoder_frame
        (length frames.old) (length weights.old))) }
{
    let mut rooms = SilenceRooms {
        known,
        is_silence,
        current_weight,
    };
    let weighed = silence_weighting::get_delta_weights(
        s,
        &mut rooms,
        num_frames_ready,
        first_decoder_frame,
        frames,
        weights,
    );
    let answer = silence_weighting::answered(weighed, *s);
    SilenceCounts {
        refusal: answer.refusal,
        changes: answer.changes,
    }
}

// ---- whose voice it is

/// The nearest of `count` enrolled vectors, where its squared distance is at most `limit`. Refuses
/// with 27 to 29. See [`nearest_voice::nearest_voice`].
#[unsafe(no_mangle)]
pub extern "C" fn shofrakin_nearest_voice(
    dim: usize,
    vector: &[u32],
    count: usize,
    enrolled: &[u32],
    limit: f32,
) -> VoiceAnswer
    ensures { result ≡ voice_answer (nearest_voice dim vector.now count enrolled.now limit) }
{
    VoiceAnswer::from(nearest_voice::nearest_voice(dim, vector, count, enrolled, limit))
}
