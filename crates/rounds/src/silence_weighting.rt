//! Silence weighting: frames that the decoder's best path calls silence enter the statistics at a
//! small weight, and the changes of weight are given by input frame. A table of three lent slices
//! has a place for each decoder frame; its record says how many are in use.

mod rooms;

ghost use Rattle.std.specs.Prelude.{◌≡◌, Bool, false, not, List, [], ◌∷◌, map, ℕ, ◌+◌, ◌-◌, ◌<◌, ◌≤◌, min, max, length, Float};
ghost use Rattle.loops.specs.Lists.{build, any_of, over};
ghost use Rattle.loops.specs.Refusal.{first_of};
ghost use Rattle.loops.specs.Ring.{put};
ghost use Rattle.floats.specs.Operators.{zero₃₂};
ghost use Rattle.definition.specs.Number.{refused_by, numbered};
ghost use Rattle.definition.specs.Silence.{decoder, FrameInfo, TableRooms, table_rooms, Table, table_in, segments, traced, before, carried, weighted, decoder_frames, input_frame, delta_weights};
ghost use Rattle.definition.specs.Silence.{settings_refusal, new_table, active, places, table_broken, traceback_tests, compute_current_traceback, get_delta_weights, table_call, table_done};
ghost use Rattle.rounds.specs.Inner.SilenceWeighting.{table_of, status_of, number, given};
ghost use Rattle.rounds.specs.Inner.SilenceWeightingRooms.{rooms_in, SameLoans, Holds, answer_of, noted};

use definition::{DecoderFrame, InputFrame, Refusal, SilenceAnswer, SilenceWeighting, need};
pub use rooms::{LentPath, SilenceRooms};

/// The highest number of an input frame.
const MAX_INPUT: usize = 1000000000;

/// The most decoder frames of a table, whatever its slices hold.
const MAX_FRAMES: usize = 1000000;

// `SilenceSettings`: more than 64 phones, a subsampling outside 1 to 16, a weight that is not
// finite.
#[tactic(auto, unfolding(loops::specs::Refusal::first_of, definition::specs::Silence::settings_refusal))]
fn check_settings(phones: usize, silence_weight: f32, subsampling: usize) -> Result<(), Refusal>
    ensures { refused_by result ≡ settings_refusal phones silence_weight subsampling }
{
    need(phones <= 64, Refusal::SilenceSettings)?;
    need(
        1 <= subsampling && subsampling <= 16,
        Refusal::SilenceSettings,
    )?;
    need(floats::is_finite(silence_weight), Refusal::SilenceSettings)
}

/// A table without frames, for slices of `table` places each.
///
/// # Errors
///
/// `SilenceSettings`: more than 64 phones, a subsampling outside 1 to 16, or a weight that is not
/// finite.
#[tactic(auto, unfolding(definition::specs::Silence::new_table))]
pub fn new(
    silence_phones: &[i32],
    silence_weight: f32,
    subsampling: usize,
    table: usize,
) -> Result<SilenceWeighting, Refusal>
    ensures { numbered result ≡ new_table (length silence_phones.now) silence_weight subsampling table }
{
    check_settings(silence_phones.len(), silence_weight, subsampling)?;
    Ok(SilenceWeighting {
        silence_weight,
        subsampling,
        phones: silence_phones.len(),
        table,
        length: DecoderFrame(0),
    })
}

/// Whether the weighting changes anything: there are silence phones, and their weight is not 1.
#[tactic(auto, unfolding(definition::specs::Silence::active))]
pub fn active(s: SilenceWeighting) -> bool
    ensures { result ≡ active s }
{
    s.phones != 0 && s.silence_weight != 1.0
}

// The most decoder frames that a table takes.
fn places(s: SilenceWeighting) -> usize
    ensures { result ≡ places s }
{
    s.table.min(MAX_FRAMES)
}

/// The record that C gets: what a call returned, and the table's record as it left it.
pub fn answered(taken: Result<usize, Refusal>, s: SilenceWeighting) -> SilenceAnswer
    ensures { result ≡ answer_of taken s }
{
    match taken {
        Ok(changes) => SilenceAnswer {
            refusal: 0,
            changes,
            silence: s,
        },
        Err(e) => SilenceAnswer {
            refusal: e.number(),
            changes: 0,
            silence: s,
        },
    }
}

// Whether a call made the record, for slices of these lengths: else `ForeignRecord`.
#[tactic(auto, unfolding(definition::specs::Silence::table_broken))]
fn is_whole(s: SilenceWeighting, rooms: &SilenceRooms<'_>) -> bool
    ensures { table_broken s (length rooms.now.known.now) (length rooms.now.is_silence.now) (length rooms.now.current_weight.now) ≡ not result }
{
    rooms.known.len() == s.table
        && rooms.is_silence.len() == s.table
        && rooms.current_weight.len() == s.table
        && check_settings(s.phones, s.silence_weight, s.subsampling).is_ok()
        && s.length.0 <= places(s)
}

// Sets n places of a slice from place a on to v. A loop, which is compiled to one fill of memory:
// `slice::fill` writes its last element on its own.
fn fill<T: Copy>(room: &mut [T], a: usize, n: usize, v: T)
    requires { a + n ≤ length room.old }
    ensures { room.new ≡ put a (build n (λ i. v)) room.old }
{
    for i in 0..n {
        room[a + i] = v;
    }
}

// Opens n places from `from` on, for frames that no path has named: unknown, of weight 0.
fn grow(rooms: &mut SilenceRooms<'_>, from: DecoderFrame, n: usize)
    requires { Holds (from.0 + n) (rooms_in rooms.old) }
    ensures known { rooms.new.known.now ≡ put from.0 (build n (λ i. false)) rooms.old.known.now }
    ensures is_silence { rooms.new.is_silence.now ≡ put from.0 (build n (λ i. false)) rooms.old.is_silence.now }
    ensures current_weight { rooms.new.current_weight.now ≡ put from.0 (build n (λ i. zero₃₂)) rooms.old.current_weight.now }
    ensures loans { SameLoans rooms.old rooms.new }
{
    fill(rooms.known, from.0, n, false);
    fill(rooms.is_silence, from.0, n, false);
    fill(rooms.current_weight, from.0, n, 0.0);
}

// ---- the traceback

// What a traceback refuses.
#[tactic(auto, unfolding(loops::specs::Refusal::first_of, definition::specs::Silence::traceback_tests))]
fn check_traceback(
    s: SilenceWeighting,
    rooms: &SilenceRooms<'_>,
    silence_phones: usize,
    path: LentPath<'_>,
    decoded: DecoderFrame,
) -> Result<(), Refusal>
    ensures { refused_by result ≡ first_of ((table_broken s (length rooms.now.known.now) (length rooms.now.is_silence.now) (length rooms.now.current_weight.now), 10)
        ∷ traceback_tests s silence_phones decoded (length path.entry.phones.now) (length path.entry.starts.now) (length path.entry.ends.now)) }
{
    need(is_whole(s, rooms), Refusal::ForeignRecord)?;
    need(silence_phones == s.phones, Refusal::ForeignRecord)?;
    need(decoded.0 <= places(s), Refusal::DecoderFrames)?;
    let n = path.phones.len();
    need(
        n == path.starts.len() && n == path.ends.len(),
        Refusal::SilenceLists,
    )
}

// Marks the frames of each segment as known, and as silence or not. Later segments win.
fn mark_segments(
    silence_phones: &[i32],
    known: &mut [bool],
    is_silence: &mut [bool],
    path: LentPath<'_>,
    decoded: DecoderFrame,
)
    requires known { decoded.0 ≤ length known.old }
    requires is_silence { decoded.0 ≤ length is_silence.old }
    requires starts { length path.phones.now ≡ length path.starts.now }
    requires ends { length path.phones.now ≡ length path.ends.now }
    ensures { (n : ℕ) (ws : List Float) → decoded.0 ≤ n → n ≤ length known.old → n ≤ length is_silence.old →
        let z : TableRooms = table_rooms known.old is_silence.old ws in
        let t : Table = traced silence_phones.now decoded (segments path.entry.phones.now path.entry.starts.now path.entry.ends.now) (table_in (decoder n) z) in
        (known.new ≡ over (map (λ f. f.known) t) known.old)
        × (is_silence.new ≡ over (map (λ f. f.is_silence) t) is_silence.old) }
{
    // by index: three lists in step
    for i in 0..path.phones.len() {
        let stop = path.ends[i].min(decoded.0);
        let start = path.starts[i].min(stop);
        let sil = silence_phones.contains(&path.phones[i]);
        fill(known, start, stop - start, true);
        fill(is_silence, start, stop - start, sil);
    }
}

/// Records from the best path's segments which decoded frames are silence. `num_frames_decoded`
/// counts the frames decoded so far; a segment is cut there.
///
/// # Errors
///
/// - `ForeignRecord`: no call made the record, or the slices or the phones have other lengths.
/// - `DecoderFrames`: more frames than the table has.
/// - `SilenceLists`: the lists of segments differ in length.
#[inline(always)]
pub fn compute_current_traceback(
    s: &mut SilenceWeighting,
    silence_phones: &[i32],
    rooms: &mut SilenceRooms<'_>,
    path: LentPath<'_>,
    num_frames_decoded: DecoderFrame,
) -> Result<(), Refusal>
    ensures call { (
        let z : TableRooms = rooms_in rooms.old in
        table_call (noted (refused_by result) s.new) (rooms_in rooms.new) [] []
        ≡ table_done s.old z [] [] (compute_current_traceback s.old z silence_phones.now path.entry.phones.now path.entry.starts.now path.entry.ends.now num_frames_decoded)) }
    ensures loans { SameLoans rooms.old rooms.new }
{
    check_traceback(*s, rooms, silence_phones.len(), path, num_frames_decoded)?;
    let old = s.length;
    grow(rooms, old, num_frames_decoded.0.saturating_sub(old.0));
    mark_segments(
        silence_phones,
        rooms.known,
        rooms.is_silence,
        path,
        num_frames_decoded,
    );
    s.length = DecoderFrame(old.0.max(num_frames_decoded.0));
    Ok(())
}

// ---- the weights

// How decoder frames lie among input frames: decoder frame 0 begins at `first`, and each spans
// `subsampling` of them.
#[derive(Clone, Copy)]
struct Clock {
    subsampling: usize,
    first: InputFrame,
    ghost some: { 0 < subsampling },
    ghost few: { subsampling ≤ 16 },
    ghost early: { first.0 ≤ 1000000000 },
}

impl Clock {
    // How many decoder frames the input frames from `first` up to `ready` reach into.
    #[tactic(auto, unfolding(definition::specs::Silence::decoder_frames))]
    fn decoder_frames(self, ready: InputFrame) -> DecoderFrame
        requires { ready.0 ≤ 1000000000 }
        ensures { result ≡ decoder_frames self.subsampling ready self.first }
    {
        let n = ready.0.saturating_sub(self.first.0);
        DecoderFrame((n + (self.subsampling - 1)) / self.subsampling)
    }

    // Input frame j of decoder frame k.
    #[tactic(auto, unfolding(definition::specs::Silence::input_frame))]
    fn input_frame(self, k: DecoderFrame, j: usize) -> InputFrame
        requires k_in { k.0 ≤ 1000000 }
        requires j_in { j < self.subsampling }
        ensures { result ≡ input_frame self.subsampling self.first k j }
    {
        InputFrame(self.first.0 + k.0 * self.subsampling + j)
    }
}

// Where the walk begins: the last 100 frames of the table are weighed anew.
fn walk_begin(s: SilenceWeighting) -> DecoderFrame
    ensures { result.0 ≡ s.length.0 - 100 }
{
    DecoderFrame(s.length.0.saturating_sub(100))
}

// The weight before the walk's first frame.
fn before_weight(s: SilenceWeighting, rooms: &SilenceRooms<'_>) -> f32
    requires { s.length.0 ≤ length rooms.now.current_weight.now }
    ensures { (ks ss : List Bool) → result ≡ before s.silence_weight (table_of s.length.0 ks ss rooms.now.current_weight.now) }
{
    let begin = walk_begin(s);
    if begin.0 == 0 {
        return s.silence_weight;
    }
    rooms.weight(s.length, DecoderFrame(begin.0 - 1))
}

// The new weight of a frame of this status, p being the weight before it. `blind`: the walk began
// at an unknown frame, so the weight carries over.
#[tactic(auto, unfolding(definition::specs::Silence::carried))]
fn next_weight(silence_weight: f32, blind: bool, status: Option<bool>, p: f32) -> f32
    ensures { (f : FrameInfo) → status ≡ status_of f → result ≡ carried silence_weight blind f p }
{
    match status {
        Some(true) if !blind => silence_weight,
        Some(false) if !blind => 1.0,
        _ => p,
    }
}

// How many changes a decoder frame gives: one for each of its input frames, where its weight
// changed or it is the last.
#[tactic(auto, unfolding(crate::specs::Inner::SilenceWeighting::number))]
fn number_of(subsampling: usize, diff: f32, last: bool) -> usize
    ensures { result ≡ number subsampling diff last }
{
    if diff != 0.0 || last { subsampling } else { 0 }
}

// How many changes the walk gives, to a table that is to have n frames.
fn count_changes(s: SilenceWeighting, rooms: &SilenceRooms<'_>, n: DecoderFrame) -> usize
    requires rooms { Holds s.length.0 (rooms_in rooms.now) }
    requires longer { s.length.0 ≤ n.0 }
    requires bound { n.0 ≤ 1000000 }
    requires subsampling { s.subsampling ≤ 16 }
    ensures { (first : InputFrame) → result ≡ length (delta_weights s.silence_weight s.subsampling first n (table_in s.length (rooms_in rooms.now))) }
{
    let begin = walk_begin(s);
    let blind = rooms.status(s.length, begin).is_none();
    let mut weight = before_weight(s, rooms);
    let mut count = 0;
    let frames_out = n.0 - begin.0;
    // by index: a step looks at places of three slices
    for offset in 0..frames_out {
        let frame = DecoderFrame(begin.0 + offset);
        let w = next_weight(
            s.silence_weight,
            blind,
            rooms.status(s.length, frame),
            weight,
        );
        let diff = w - rooms.weight(s.length, frame);
        count += number_of(s.subsampling, diff, frame.0 + 1 == n.0);
        weight = w;
    }
    count
}

// Writes the changes of decoder frame k from place `at` of the lists on. It returns the place after
// them.
fn give(
    frames: &mut [usize],
    weights: &mut [f32],
    at: usize,
    clock: Clock,
    k: DecoderFrame,
    diff: f32,
    last: bool,
) -> usize
    requires frames { at + number clock.subsampling diff last ≤ length frames.old }
    requires weights { at + number clock.subsampling diff last ≤ length weights.old }
    requires k_in { k.0 ≤ 1000000 }
    ensures after { result ≡ at + number clock.subsampling diff last }
    ensures frames { frames.new ≡ put at (map (λ x. x.0) (given clock.subsampling clock.first k diff last)) frames.old }
    ensures weights { weights.new ≡ put at (map (λ x. x.1) (given clock.subsampling clock.first k diff last)) weights.old }
{
    let n = number_of(clock.subsampling, diff, last);
    // by index: the input frame is computed from j
    for j in 0..n {
        frames[at + j] = clock.input_frame(k, j).0;
    }
    fill(weights, at, n, diff);
    at + n
}

// The walk, to a table that is to have n frames: it writes the new weights and the changes, and
// returns how many changes these are.
fn give_changes(
    s: SilenceWeighting,
    rooms: &mut SilenceRooms<'_>,
    n: DecoderFrame,
    clock: Clock,
    frames: &mut [usize],
    weights: &mut [f32],
) -> usize
    requires rooms { Holds n.0 (rooms_in rooms.old) }
    requires longer { s.length.0 ≤ n.0 }
    requires bound { n.0 ≤ 1000000 }
    requires enough { length (delta_weights s.silence_weight clock.subsampling clock.first n (table_in s.length (rooms_in rooms.old))) ≤ min (length frames.old) (length weights.old) }
    ensures count { result ≡ length (delta_weights s.silence_weight clock.subsampling clock.first n (table_in s.length (rooms_in rooms.old))) }
    ensures known { rooms.new.known.now ≡ rooms.old.known.now }
    ensures is_silence { rooms.new.is_silence.now ≡ rooms.old.is_silence.now }
    ensures current_weight { rooms.new.current_weight.now
        ≡ over (map (λ f. f.current_weight) (weighted s.silence_weight n (table_in s.length (rooms_in rooms.old)))) rooms.old.current_weight.now }
    ensures frames { frames.new ≡ over (map (λ x. x.0) (delta_weights s.silence_weight clock.subsampling clock.first n (table_in s.length (rooms_in rooms.old)))) frames.old }
    ensures weights { weights.new ≡ over (map (λ x. x.1) (delta_weights s.silence_weight clock.subsampling clock.first n (table_in s.length (rooms_in rooms.old)))) weights.old }
    ensures loans { SameLoans rooms.old rooms.new }
{
    let begin = walk_begin(s);
    let blind = rooms.status(s.length, begin).is_none();
    let mut weight = before_weight(s, rooms);
    let mut at = 0;
    let frames_out = n.0 - begin.0;
    // by index: a step looks at places of three slices
    for offset in 0..frames_out {
        let frame = DecoderFrame(begin.0 + offset);
        let w = next_weight(
            s.silence_weight,
            blind,
            rooms.status(s.length, frame),
            weight,
        );
        let diff = w - rooms.weight(s.length, frame);
        let last = frame.0 + 1 == n.0;
        rooms.current_weight[frame.0] = w;
        at = give(frames, weights, at, clock, frame, diff, last);
        weight = w;
    }
    at
}

// What a weighing refuses. `room` is the length of the shorter list.
#[tactic(auto, unfolding(loops::specs::Refusal::first_of, definition::specs::Silence::delta_tests, definition::specs::Silence::get_delta_weights))]
fn check_deltas(
    s: SilenceWeighting,
    rooms: &SilenceRooms<'_>,
    ready: InputFrame,
    first: InputFrame,
    room: usize,
) -> Result<(), Refusal>
    ensures { (frames weights : ℕ) → room ≡ min frames weights → refused_by result ≡ (get_delta_weights s (rooms_in rooms.now) ready first frames weights).refusal }
{
    need(is_whole(s, rooms), Refusal::ForeignRecord)?;
    need(ready.0 <= MAX_INPUT, Refusal::DecoderFrames)?;
    need(first.0 <= MAX_INPUT, Refusal::DecoderFrames)?;
    let clock = Clock {
        subsampling: s.subsampling,
        first,
    };
    let wanted = clock.decoder_frames(ready);
    need(wanted.0 <= places(s), Refusal::DecoderFrames)?;
    if ready.0 <= first.0 {
        return Ok(());
    }
    let n = DecoderFrame(s.length.0.max(wanted.0));
    // with room for a change of each input frame, the changes need not be counted
    let frames_out = n.0 - walk_begin(s).0;
    if frames_out * s.subsampling <= room {
        return Ok(());
    }
    need(count_changes(s, rooms, n) <= room, Refusal::SilenceLists)
}

/// The changes of weight by input frame, Kaldi's `GetDeltaWeights`, in the first places of the two
/// lists. It returns how many. Decoder frame 0 begins at input frame `first_decoder_frame`.
///
/// # Errors
///
/// - `ForeignRecord`: no call made the record, or the slices have other lengths.
/// - `DecoderFrames`: more frames than the table has, or a frame number above 10^9.
/// - `SilenceLists`: the lists are too short for the changes.
#[inline(always)]
pub fn get_delta_weights(
    s: &mut SilenceWeighting,
    rooms: &mut SilenceRooms<'_>,
    num_frames_ready: InputFrame,
    first_decoder_frame: InputFrame,
    frames: &mut [usize],
    weights: &mut [f32],
) -> Result<usize, Refusal>
    ensures call { (
        let z : TableRooms = rooms_in rooms.old in
        table_call (answer_of result s.new) (rooms_in rooms.new) frames.new weights.new
        ≡ table_done s.old z frames.old weights.old (get_delta_weights s.old z num_frames_ready first_decoder_frame (length frames.old) (length weights.old))) }
    ensures loans { SameLoans rooms.old rooms.new }
{
    let room = frames.len().min(weights.len());
    check_deltas(*s, rooms, num_frames_ready, first_decoder_frame, room)?;
    if num_frames_ready.0 <= first_decoder_frame.0 {
        return Ok(0);
    }
    let clock = Clock {
        subsampling: s.subsampling,
        first: first_decoder_frame,
    };
    let old = s.length;
    let n = DecoderFrame(old.0.max(clock.decoder_frames(num_frames_ready).0));
    let changes = give_changes(*s, rooms, n, clock, frames, weights);
    fill(rooms.known, old.0, n.0 - old.0, false);
    fill(rooms.is_silence, old.0, n.0 - old.0, false);
    s.length = n;
    Ok(changes)
}
