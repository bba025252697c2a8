//! A stream: a fresh one, its calls, and questions.

ghost use Rattle.std.specs.Prelude.{◌≡◌, length};
ghost use Rattle.loops.specs.Refusal.{taken};
ghost use Rattle.definition.specs.Model.{Tables, tables_from, table_lengths_of};
ghost use Rattle.definition.specs.Machine.{frames_ready};
ghost use Rattle.definition.specs.Stream.{new_refusal};
ghost use Rattle.program.specs.Rooms.{Rings, rings_from, estimate_from, Rooms, rooms_from, room_lengths_of};
ghost use Rattle.program.specs.Calls.{new_answer, fresh_rooms, ring_call, done_on, push_frame, set_input_finished, update_frame_weights, forget_before, set_cmn_window, Step, fetch_call, fetched_on, get_frame};
ghost use Rattle.answers.specs.Answers.{answered, new_stream_answer};

use definition::{IvectorInfo, IvectorStream, LentTables, StreamAnswer, StreamCall};
use stream::{Stream, ivector_stream};

// ---- a fresh stream

/// A fresh stream on a loaded model. Its rooms: F frames of b numbers, R prefix rows of b numbers
/// (R above 1), two lists for the waiting changes, then b + 1, s, s (s + 1) / 2 and s numbers;
/// scratch is the larger of g d and s s. Longer ones are taken. Refuses with 10 and 8. See
/// [`Stream::start`].
#[unsafe(no_mangle)]
pub extern "C" fn shofrakin_new_stream(
    info: IvectorInfo,
    gconsts: &[f32],
    means_invvars_t: &[f32],
    inv_vars_t: &[f32],
    sigma_inv_m: &[f64],
    u: &[f64],
    lda_t: &[f32],
    lda_offset: &[f32],
    global_mean_stats: &[f64],
    frames: &mut [f32],
    rows: &mut [f64],
    waiting_frames: &mut [usize],
    waiting_weights: &mut [f32],
    cmvn_stats: &mut [f64],
    linear: &mut [f64],
    quadratic: &mut [f64],
    current: &mut [f64],
    scratch: &mut [f64],
) -> StreamCall
    ensures { (
        let t : Tables = tables_from gconsts.now means_invvars_t.now inv_vars_t.now sigma_inv_m.now
        u.now lda_t.now lda_offset.now global_mean_stats.now in
        let z : Rooms = rooms_from
        (rings_from frames.old rows.old waiting_frames.old waiting_weights.old)
        (estimate_from cmvn_stats.old linear.old quadratic.old current.old) in
        let y : Rooms = rooms_from
        (rings_from frames.new rows.new waiting_frames.new waiting_weights.new)
        (estimate_from cmvn_stats.new linear.new quadratic.new current.new) in
        let lengths = room_lengths_of z (length scratch.old) in
        (result ≡ new_stream_answer info (new_answer info (table_lengths_of t) lengths))
        × (y ≡ taken (new_refusal info (table_lengths_of t) lengths) (fresh_rooms info z) z)
        × (scratch.new ≡ scratch.old)) }
{
    let tables = LentTables {
        gconsts,
        means_invvars_t,
        inv_vars_t,
        sigma_inv_m,
        u,
        lda_t,
        lda_offset,
        global_mean_stats,
    };
    let mut record = IvectorStream::default();
    let mut stream = Stream {
        record: &mut record,
        frames,
        rows,
        waiting_frames,
        waiting_weights,
        cmvn_stats,
        linear,
        quadratic,
        current,
        scratch,
    };
    let started = stream.start(info, tables);
    answers::start_answer(info, started, *stream.record)
}

// ---- calls on a stream

/// Appends a frame of b finite numbers. Refuses with 10 to 15. See [`Stream::push`].
#[unsafe(no_mangle)]
pub extern "C" fn shofrakin_push_frame(
    s: &mut IvectorStream,
    frame: &[f32],
    frames: &mut [f32],
    rows: &mut [f64],
    waiting_frames: &mut [usize],
    waiting_weights: &mut [f32],
) -> StreamAnswer
    ensures { (
        let s₀ : IvectorStream = s.old in
        let z : Rings = rings_from frames.old rows.old waiting_frames.old waiting_weights.old in
        ring_call (answered result s.new)
        (rings_from frames.new rows.new waiting_frames.new waiting_weights.new)
        ≡ done_on s₀ z (push_frame s₀ z frame.now)) }
{
    let mut stream = Stream {
        record: s,
        frames,
        rows,
        waiting_frames,
        waiting_weights,
        cmvn_stats: &mut [],
        linear: &mut [],
        quadratic: &mut [],
        current: &mut [],
        scratch: &mut [],
    };
    let pushed = stream.push(frame);
    answers::answered(pushed, s)
}

/// Ends the input: every accepted frame is ready. Refuses with 10. See [`Stream::finish`].
#[unsafe(no_mangle)]
pub extern "C" fn shofrakin_set_input_finished(
    s: &mut IvectorStream,
    frames: &mut [f32],
    rows: &mut [f64],
    waiting_frames: &mut [usize],
    waiting_weights: &mut [f32],
) -> StreamAnswer
    ensures { (
        let s₀ : IvectorStream = s.old in
        let z : Rings = rings_from frames.old rows.old waiting_frames.old waiting_weights.old in
        ring_call (answered result s.new)
        (rings_from frames.new rows.new waiting_frames.new waiting_weights.new)
        ≡ done_on s₀ z (set_input_finished s₀ z)) }
{
    let mut stream = Stream {
        record: s,
        frames,
        rows,
        waiting_frames,
        waiting_weights,
        cmvn_stats: &mut [],
        linear: &mut [],
        quadratic: &mut [],
        current: &mut [],
        scratch: &mut [],
    };
    let finished = stream.finish();
    answers::answered(finished, s)
}

/// Changes the weights of frames, at most 384 in one call. From the first such call on, fetches are
/// weighted. Refuses with 10, 16, 17, 30 and 19. See [`Stream::change`].
#[unsafe(no_mangle)]
pub extern "C" fn shofrakin_update_frame_weights(
    s: &mut IvectorStream,
    delta_frames: &[usize],
    delta_weights: &[f32],
    frames: &mut [f32],
    rows: &mut [f64],
    waiting_frames: &mut [usize],
    waiting_weights: &mut [f32],
) -> StreamAnswer
    ensures { (
        let s₀ : IvectorStream = s.old in
        let z : Rings = rings_from frames.old rows.old waiting_frames.old waiting_weights.old in
        ring_call (answered result s.new)
        (rings_from frames.new rows.new waiting_frames.new waiting_weights.new)
        ≡ done_on s₀ z (update_frame_weights s₀ z delta_frames.now delta_weights.now)) }
{
    let mut stream = Stream {
        record: s,
        frames,
        rows,
        waiting_frames,
        waiting_weights,
        cmvn_stats: &mut [],
        linear: &mut [],
        quadratic: &mut [],
        current: &mut [],
        scratch: &mut [],
    };
    let changed = stream.change(delta_frames, delta_weights);
    answers::answered(changed, s)
}

/// Begins an utterance at `frame`: no change may name a frame before it from now on. Refuses with
/// 10. See [`Stream::forget`].
#[unsafe(no_mangle)]
pub extern "C" fn shofrakin_forget_before(
    s: &mut IvectorStream,
    frame: usize,
    frames: &mut [f32],
    rows: &mut [f64],
    waiting_frames: &mut [usize],
    waiting_weights: &mut [f32],
) -> StreamAnswer
    ensures { (
        let s₀ : IvectorStream = s.old in
        let z : Rings = rings_from frames.old rows.old waiting_frames.old waiting_weights.old in
        ring_call (answered result s.new)
        (rings_from frames.new rows.new waiting_frames.new waiting_weights.new)
        ≡ done_on s₀ z (forget_before s₀ z frame)) }
{
    let mut stream = Stream {
        record: s,
        frames,
        rows,
        waiting_frames,
        waiting_weights,
        cmvn_stats: &mut [],
        linear: &mut [],
        quadratic: &mut [],
        current: &mut [],
        scratch: &mut [],
    };
    let forgotten = stream.forget(frame);
    answers::answered(forgotten, s)
}

/// Sets the CMVN window of the fetches to come, 1 to 1,000 frames. Refuses with 10, 31 and 32. See
/// [`Stream::set_window`].
#[unsafe(no_mangle)]
pub extern "C" fn shofrakin_set_cmn_window(
    s: &mut IvectorStream,
    window: usize,
    frames: &mut [f32],
    rows: &mut [f64],
    waiting_frames: &mut [usize],
    waiting_weights: &mut [f32],
) -> StreamAnswer
    ensures { (
        let s₀ : IvectorStream = s.old in
        let z : Rings = rings_from frames.old rows.old waiting_frames.old waiting_weights.old in
        ring_call (answered result s.new)
        (rings_from frames.new rows.new waiting_frames.new waiting_weights.new)
        ≡ done_on s₀ z (set_cmn_window s₀ z window)) }
{
    let mut stream = Stream {
        record: s,
        frames,
        rows,
        waiting_frames,
        waiting_weights,
        cmvn_stats: &mut [],
        linear: &mut [],
        quadratic: &mut [],
        current: &mut [],
        scratch: &mut [],
    };
    let set = stream.set_window(window);
    answers::answered(set, s)
}

/// The vector at `frame` into `out`: the bits of s f32 numbers, a NaN as 7FC00000. Refuses with 10,
/// 20, 21 and 22. See [`Stream::fetch`].
#[unsafe(no_mangle)]
pub extern "C" fn shofrakin_get_frame(
    s: &mut IvectorStream,
    frame: usize,
    gconsts: &[f32],
    means_invvars_t: &[f32],
    inv_vars_t: &[f32],
    sigma_inv_m: &[f64],
    u: &[f64],
    lda_t: &[f32],
    lda_offset: &[f32],
    global_mean_stats: &[f64],
    frames: &mut [f32],
    rows: &mut [f64],
    waiting_frames: &mut [usize],
    waiting_weights: &mut [f32],
    cmvn_stats: &mut [f64],
    linear: &mut [f64],
    quadratic: &mut [f64],
    current: &mut [f64],
    scratch: &mut [f64],
    out: &mut [u32],
) -> StreamAnswer
    ensures { (
        let s₀ : IvectorStream = s.old in
        let t : Tables = tables_from gconsts.now means_invvars_t.now inv_vars_t.now sigma_inv_m.now
        u.now lda_t.now lda_offset.now global_mean_stats.now in
        let z : Rooms = rooms_from
        (rings_from frames.old rows.old waiting_frames.old waiting_weights.old)
        (estimate_from cmvn_stats.old linear.old quadratic.old current.old) in
        let y : Rooms = rooms_from
        (rings_from frames.new rows.new waiting_frames.new waiting_weights.new)
        (estimate_from cmvn_stats.new linear.new quadratic.new current.new) in
        let x : Step = get_frame s₀ t z (length scratch.old) frame (length out.old) in
        (fetch_call (answered result s.new) y out.new ≡ fetched_on s₀ z out.old x)
        × ((x.refusal ≡ 0 → ⊥) → scratch.new ≡ scratch.old)) }
{
    let tables = LentTables {
        gconsts,
        means_invvars_t,
        inv_vars_t,
        sigma_inv_m,
        u,
        lda_t,
        lda_offset,
        global_mean_stats,
    };
    let mut stream = Stream {
        record: s,
        frames,
        rows,
        waiting_frames,
        waiting_weights,
        cmvn_stats,
        linear,
        quadratic,
        current,
        scratch,
    };
    let fetched = stream.fetch(frame, tables, out);
    answers::fetch_answer(fetched, s)
}

// ---- questions

/// How many frames can be fetched.
#[unsafe(no_mangle)]
pub extern "C" fn shofrakin_num_frames_ready(s: &IvectorStream) -> usize
    ensures { result ≡ frames_ready s.now.info.opts s.now.input_finished s.now.accepted }
{
    ivector_stream::num_frames_ready(*s)
}

/// The length of a fetch's output.
#[unsafe(no_mangle)]
pub extern "C" fn shofrakin_ivector_dim(s: &IvectorStream) -> usize
    ensures { result ≡ s.now.info.dims.ivector_dim }
{
    ivector_stream::ivector_dim(*s)
}

/// The first frame that is not in the statistics.
#[unsafe(no_mangle)]
pub extern "C" fn shofrakin_num_frames_stats(s: &IvectorStream) -> usize
    ensures { result ≡ s.now.num_frames_stats }
{
    ivector_stream::num_frames_stats(*s)
}
