//! The calls on a stream but for the fetch.

ghost use Rattle.std.specs.Prelude.{◌≡◌, true, ◌<◌, ◌≤◌, min, length, take};
ghost use mathlib.Core.List.{foldl};
ghost use Rattle.loops.specs.Lists.{over};
ghost use Rattle.loops.specs.Refusal.{taken};
ghost use Rattle.definition.specs.Kaldi.{triangle};
ghost use Rattle.definition.specs.Number.{refused_by};
ghost use Rattle.definition.specs.Lent.{tables_in};
ghost use Rattle.definition.specs.Model.{table_lengths_of};
ghost use Rattle.definition.specs.Statistics.{new_stats};
ghost use Rattle.definition.specs.Solve.{prior_vector};
ghost use Rattle.definition.specs.Machine.{frames_ready, longest_from};
ghost use Rattle.definition.specs.Stream.{rising, new_refusal};
ghost use Rattle.program.specs.Calls.{push_frame, set_input_finished, update_frame_weights, forget_before, set_cmn_window};
ghost use Rattle.stream.specs.Stream.{program_of, lengths_of, fresh_program, after, done_by, Few, Rest, SameRooms};

use crate::stream_rooms::Stream;
use crate::{delta_weights, stream_refusals};
use algebra::basics;
use definition::{IvectorInfo, IvectorStream, LentTables, Refusal};

// ---- parts of the calls

// The statistics before any frame, and the prior as the current vector.
fn fresh_estimate(
    dim: usize,
    prior_offset: f64,
    linear: &mut [f64],
    quadratic: &mut [f64],
    current: &mut [f64],
)
    requires some { 0 < dim }
    requires bound { dim ≤ 128 }
    requires linear { dim ≤ length linear.old }
    requires quadratic { triangle dim ≤ length quadratic.old }
    requires current { dim ≤ length current.old }
    ensures linear { linear.new ≡ over (new_stats dim prior_offset).linear linear.old }
    ensures quadratic { quadratic.new ≡ over (new_stats dim prior_offset).quadratic quadratic.old }
    ensures current { current.new ≡ over (prior_vector dim prior_offset) current.old }
{
    let packed = dim * (dim + 1) / 2;
    ivector_stats::new(
        dim,
        prior_offset,
        &mut linear[..dim],
        &mut quadratic[..packed],
    );
    ivector_stats::prior_vector(dim, prior_offset, &mut current[..dim]);
}

// The lowest of `low` and of frames that ascend.
fn lowest(low: usize, frames: &[usize]) -> usize
    requires { rising 0 frames.now ≡ true }
    ensures { result ≡ foldl min low frames.now }
{
    match frames.first() {
        Some(&first) => low.min(first),
        None => low,
    }
}

// The longest window after a forget that brings the mark to `raised`: where the mark rises, the
// window in force.
#[tactic(auto, unfolding(definition::specs::Machine::longest_from))]
fn longest_from(window: usize, longest: usize, mark: usize, raised: usize) -> usize
    ensures { result ≡ longest_from window longest mark raised }
{
    if mark < raised { window } else { longest }
}

// ---- the calls

impl Stream<'_> {
    /// Makes a fresh stream on a model: the record is written, prefix row 0 and the CMVN state are
    /// cleared, and the estimate is set to the prior. What the record held before does not matter.
    ///
    /// # Errors
    ///
    /// - `ForeignRecord`: no load made the model's record, or the tables have other lengths.
    /// - `ShortRoom`: a room is too short for the model.
    pub fn start(&mut self, info: IvectorInfo, tables: LentTables<'_>) -> Result<(), Refusal>
        ensures refusal { refused_by result
            ≡ new_refusal info (table_lengths_of (tables_in tables.entry)) (lengths_of self.old) }
        ensures fresh { program_of self.new
            ≡ taken (refused_by result) (fresh_program info self.old) (program_of self.old) }
        ensures scratch { self.new.scratch.now ≡ self.old.scratch.now }
        ensures loans { SameRooms self.old self.new }
    {
        let lengths = self.lengths();
        stream_refusals::new_refusal(info, tables.lengths(), lengths)?;
        let d = info.dims;
        let window = info.opts.cmn_window;
        basics::clear_front(self.rows, d.base_dim);
        basics::clear_front(self.cmvn_stats, d.base_dim + 1);
        fresh_estimate(
            d.ivector_dim,
            info.prior_offset,
            self.linear,
            self.quadratic,
            self.current,
        );
        *self.record = IvectorStream {
            info,
            lengths,
            accepted: 0,
            num_frames_stats: 0,
            mark: 0,
            waiting: 0,
            past_highest: 0,
            delta_weights_provided: false,
            input_finished: false,
            num_frames: 0.0,
            floor: 0,
            window,
            longest: window,
        };
        Ok(())
    }

    /// Appends a frame of `base_dim` finite numbers: the frame to its ring, its sums to the ring of
    /// prefix rows.
    ///
    /// # Errors
    ///
    /// Beside `ForeignRecord` (10), in this order:
    ///
    /// - `FrameLength` (11): not `base_dim` numbers.
    /// - `FrameNumber` (12): a number is not finite.
    /// - `LastFrame` (13): 10^9 frames are in.
    /// - `FramesFull` (14), `RowsFull` (15): a ring has no place for one more.
    pub fn push(&mut self, frame: &[f32]) -> Result<(), Refusal>
        ensures call { after result self.new ≡ done_by self.old (λ s z. push_frame s z frame.now) }
        ensures few { Few result self.new }
        ensures rest { Rest self.old self.new }
    {
        self.push_refusal(frame)?;
        stream_refusals::store_frame(self.frames, self.rows, self.record.accepted, frame);
        self.record.accepted += 1;
        Ok(())
    }

    /// Ends the input: no frame waits for its right context any more, so every frame is ready.
    #[tactic(auto, unfolding(program::specs::Calls::set_input_finished))]
    pub fn finish(&mut self) -> Result<(), Refusal>
        ensures call { after result self.new ≡ done_by self.old set_input_finished }
        ensures few { Few result self.new }
        ensures rest { Rest self.old self.new }
    {
        self.plain_refusal()?;
        self.record.input_finished = true;
        Ok(())
    }

    /// Adds `delta_weights` to the weights of `delta_frames`. The changes wait until a fetch
    /// reaches their frames. From the first such call on, even an empty one, fetches are weighted.
    ///
    /// # Errors
    ///
    /// Beside `ForeignRecord` (10), in this order:
    ///
    /// - `ChangeList` (16): the lists differ in length, or have more than 384 changes.
    /// - `ChangeNumber` (17): a frame of 10^9 or more, or a weight that is not finite.
    /// - `Forgotten` (30): a frame below one that a forget named.
    /// - `FrameGone` (18): a frame that is no longer kept. It never occurs: such a frame is
    ///   forgotten.
    /// - `WaitingFull` (19): no place for that many.
    pub fn change(&mut self, delta_frames: &[usize], delta_weights: &[f32]) -> Result<(), Refusal>
        ensures call { after result self.new
            ≡ done_by self.old
            (λ s z. update_frame_weights s z delta_frames.now delta_weights.now) }
        ensures few { Few result self.new }
        ensures rest { Rest self.old self.new }
    {
        self.change_refusal(delta_frames, delta_weights)?;
        let past_highest = delta_weights::update_frame_weights(
            self.waiting_frames,
            self.waiting_weights,
            self.record.waiting,
            self.record.past_highest,
            delta_frames,
            delta_weights,
        );
        self.record.waiting += delta_frames.len();
        self.record.past_highest = past_highest;
        self.record.delta_weights_provided = true;
        Ok(())
    }

    // The lowest of `low` and of the frames that changes wait for.
    fn lowest_waiting(&self, low: usize) -> usize
        requires within { self.now.record.now.waiting ≤ length self.now.waiting_frames.now }
        requires order { rising 0 (take self.now.record.now.waiting self.now.waiting_frames.now)
            ≡ true }
        ensures { result
            ≡ foldl min low (take self.now.record.now.waiting self.now.waiting_frames.now) }
    {
        lowest(low, &self.waiting_frames[..self.record.waiting])
    }

    /// Begins an utterance at `frame`: no change may name a frame before it from now on. Frames and
    /// rows that nothing can need any more are freed.
    #[tactic(auto, unfolding(program::specs::Calls::forget_before, program::specs::Calls::forget_mark, definition::specs::Machine::forgotten))]
    pub fn forget(&mut self, frame: usize) -> Result<(), Refusal>
        ensures call { after result self.new ≡ done_by self.old (λ s z. forget_before s z frame) }
        ensures few { Few result self.new }
        ensures rest { Rest self.old self.new }
    {
        let reached = frame.min(self.record.num_frames_stats);
        self.plain_refusal()?;
        let first = self.lowest_waiting(reached);
        let s = &mut *self.record;
        let kept = first.saturating_sub(s.info.opts.left_context);
        let mark = s.mark.max(kept);
        s.longest = longest_from(s.window, s.longest, s.mark, mark);
        s.mark = mark;
        s.floor = s.floor.max(frame);
        Ok(())
    }

    /// Sets the CMVN window, in frames, of the fetches to come. CMVN state, statistics and waiting
    /// changes carry over.
    ///
    /// # Errors
    ///
    /// Beside `ForeignRecord` (10):
    ///
    /// - `WindowRange` (31): not 1 to 1,000 frames.
    /// - `OldWindow` (32): above the longest window, and older rows are gone.
    #[tactic(auto, unfolding(program::specs::Calls::set_cmn_window))]
    pub fn set_window(&mut self, window: usize) -> Result<(), Refusal>
        ensures call { after result self.new ≡ done_by self.old (λ s z. set_cmn_window s z window) }
        ensures few { Few result self.new }
        ensures rest { Rest self.old self.new }
    {
        self.window_refusal(window)?;
        let s = &mut *self.record;
        s.window = window;
        s.longest = s.longest.max(window);
        Ok(())
    }
}

// ---- questions

/// How many frames can be fetched: a frame needs its right context, until the input is finished.
pub fn num_frames_ready(s: IvectorStream) -> usize
    ensures { result ≡ frames_ready s.info.opts s.input_finished s.accepted }
{
    limits::frames_ready(s.info.opts, s.input_finished, s.accepted)
}

/// The length of a fetch's output.
pub fn ivector_dim(s: IvectorStream) -> usize
    ensures { result ≡ s.info.dims.ivector_dim }
{
    s.info.dims.ivector_dim
}

/// The first frame that is not in the statistics.
pub fn num_frames_stats(s: IvectorStream) -> usize
    ensures { result ≡ s.num_frames_stats }
{
    s.num_frames_stats
}
