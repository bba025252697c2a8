//! The fetch: the i-vector at a frame.

ghost use Rattle.std.specs.Prelude.{◌≡◌, ◌&&◌, ℕ, List, Float, true, ◌+◌, ◌<◌, ◌≤◌, length, take, leb, if◌then◌else◌};
ghost use Rattle.std.specs.Float.{binary32};
ghost use Rattle.std.specs.Float.Ieee.{to_bits};
ghost use Rattle.std.specs.Float.Ieee.Scale.{finite};
ghost use Rattle.loops.specs.Lists.{those, over};
ghost use Rattle.definition.specs.Model.{in_force};
ghost use Rattle.definition.specs.Lent.{tables_in};
ghost use Rattle.definition.specs.Machine.{bits_of, not_finite};
ghost use Rattle.definition.specs.Number.{refused_by};
ghost use Rattle.definition.specs.Stream.{rising};
ghost use Rattle.stream.specs.Stream.{record_of, rooms_of, fetch_of, after_fetch, fetched_by, Few, SameRooms};
ghost use Rattle.stream.specs.Inner.IvectorFetch.{fetched_at, vector_at};

use crate::ivector_batch::Intake;
use crate::stream_rooms::{Fetched, Stream};
use crate::{delta_weights, ivector_update};
use definition::{IvectorInfo, LentFrames, LentTables, LentWaiting, Refusal, need};

// Whether, after a change call, weights up to frame f are not known yet: f is not in the
// statistics, and no change reached it.
fn unreached(next: usize, called: bool, past_highest: usize, f: usize) -> bool
    ensures { result ≡ (leb next f && called && leb past_highest f) }
{
    next <= f && called && past_highest <= f
}

// The model's record with the window in force in place of the options' own.
fn in_force(info: IvectorInfo, window: usize) -> IvectorInfo
    ensures { result ≡ in_force info window }
{
    let mut i = info;
    i.opts.cmn_window = window;
    i
}

// Element i of the output, from element i of the current vector. The prior is taken off element 0.
fn fetched_at(prior_offset: f64, i: usize, x: f64) -> f32
    ensures { result ≡ fetched_at prior_offset i x }
{
    let v = floats::narrow(x);
    if i == 0 {
        return v - floats::narrow(prior_offset);
    }
    v
}

// n, plus one where x is not finite.
fn count_bad(n: usize, x: f32) -> usize
    requires { n < 1000000000 }
    ensures { (result ≡ (if finite x then n else n + 1)) × (result ≤ n + 1) }
{
    if floats::is_finite(x) {
        return n;
    }
    n + 1
}

// The bits of x; a NaN has 7FC00000.
fn bits(x: f32) -> u32
    ensures { result ≡ to_bits binary32 x }
{
    if x != x {
        return 0x7fc0_0000;
    }
    f32::to_bits(x)
}

// Writes the bits of the output, and returns how many of its numbers are not finite.
fn write_vector(prior_offset: f64, current: &[f64], out: &mut [u32]) -> usize
    requires { (length out.old ≤ length current.now) × (length out.old ≤ 128) }
    ensures { (
        let v : List Float = vector_at prior_offset current.now (length out.old) in
        (out.new ≡ over (bits_of v) out.old) × (result ≡ not_finite v)) }
{
    let mut bad = 0;
    // by index (limit: zip)
    for i in 0..out.len() {
        let v = fetched_at(prior_offset, i, current[i]);
        out[i] = bits(v);
        bad = count_bad(bad, v);
    }
    bad
}

// ---- the call

impl Stream<'_> {
    // What a fetch refuses. `n` is the output's length.
    #[tactic(auto, unfolding(loops::specs::Refusal::first_of, program::specs::Calls::get_frame, program::specs::Calls::fetch_refusal, definition::specs::Machine::fetch_tests))]
    fn fetch_refusal(&self, frame: usize, tables: LentTables<'_>, n: usize) -> Result<(), Refusal>
        ensures { refused_by result
            ≡ (fetch_of self.now (tables_in tables.entry) frame n).refusal }
    {
        let s = &*self.record;
        let same_tables = limits::same_tables(tables.lengths(), s.info.tables);
        need(same_tables, Refusal::ForeignRecord)?;
        let same_rooms = limits::same_rooms(self.lengths(), s.lengths);
        need(same_rooms, Refusal::ForeignRecord)?;
        need(
            !limits::is_foreign(s, self.waiting_frames),
            Refusal::ForeignRecord,
        )?;
        need(n == s.info.dims.ivector_dim, Refusal::OutputLength)?;
        let ready = limits::frames_ready(s.info.opts, s.input_finished, s.accepted);
        need(frame < ready, Refusal::NotReady)?;
        need(
            !unreached(
                s.num_frames_stats,
                s.delta_weights_provided,
                s.past_highest,
                frame,
            ),
            Refusal::AboveHighest,
        )
    }

    // How many of the waiting changes are up to `frame`.
    fn changes_up_to(&self, frame: usize) -> usize
        requires within { self.now.record.now.waiting ≤ length self.now.waiting_frames.now }
        requires order { rising 0 (take self.now.record.now.waiting self.now.waiting_frames.now)
            ≡ true }
        ensures { (
            let fs : List ℕ = take self.now.record.now.waiting self.now.waiting_frames.now in
            (result ≡ length (those (λ g. leb g frame) fs)) × (result ≤ length fs)) }
    {
        delta_weights::up_to(&self.waiting_frames[..self.record.waiting], frame)
    }

    // Writes the output from the current vector, as `write_vector` does.
    fn write_current(&self, out: &mut [u32]) -> usize
        requires { (length out.old ≤ length self.now.current.now) × (length out.old ≤ 128) }
        ensures { (
            let v : List Float = vector_at self.now.record.now.info.prior_offset
            self.now.current.now (length out.old) in
            (out.new ≡ over (bits_of v) out.old) × (result ≡ not_finite v)) }
    {
        write_vector(self.record.info.prior_offset, self.current, out)
    }

    // Brings the statistics up to `frame`, where they are not there yet, and refreshes the
    // estimate. It returns how many likelihoods were NaN. A fetch of `n` numbers is taken.
    fn bring_in(&mut self, frame: usize, tables: LentTables<'_>, n: usize) -> usize
        requires { (fetch_of self.old (tables_in tables) frame n).refusal ≡ 0 }
        ensures record { record_of self.new
            ≡ (fetch_of self.old (tables_in tables.entry) frame n).stream }
        ensures rooms { rooms_of self.new
            ≡ (fetch_of self.old (tables_in tables.entry) frame n).rooms }
        ensures nans { result ≡ (fetch_of self.old (tables_in tables.entry) frame n).nans }
        ensures scratch_length { length self.new.scratch.now ≡ length self.old.scratch.now }
        ensures loans { SameRooms self.old self.new }
    {
        let s = *self.record;
        if frame < s.num_frames_stats {
            return 0;
        }
        let now = in_force(s.info, s.window);
        let changes = self.changes_up_to(frame);
        let frames = &mut *self.frames;
        let rows = &mut *self.rows;
        let held = LentFrames { frames, rows };
        let waiting_frames = &mut *self.waiting_frames;
        let waiting_weights = &mut *self.waiting_weights;
        let waiting = LentWaiting {
            frames: waiting_frames,
            weights: waiting_weights,
        };
        let intake = Intake {
            accepted: s.accepted,
            called: s.delta_weights_provided,
            next: s.num_frames_stats,
            end: frame + 1,
            changes,
            waiting,
        };
        let update = ivector_update::update_rooms(
            now,
            intake,
            tables,
            held,
            s.num_frames,
            self.cmvn_stats,
            self.linear,
            self.quadratic,
            self.current,
            self.scratch,
        );
        delta_weights::remove_first(
            self.waiting_frames,
            self.waiting_weights,
            s.waiting,
            changes,
        );
        self.record.num_frames_stats = frame + 1;
        self.record.waiting = s.waiting - changes;
        self.record.num_frames = update.num_frames;
        update.nans
    }

    /// The i-vector at `frame`, as the bits of f32 numbers in `out`; a NaN has 7FC00000.
    ///
    /// A frame that is not in the statistics yet brings them up to itself, by the window in force.
    /// The estimate is refreshed, and the changes that were used wait no longer. The prior is taken
    /// off element 0.
    ///
    /// `out` has `ivector_dim` numbers. `scratch` is free once a fetch is taken.
    ///
    /// # Errors
    ///
    /// The first that is met, by its number; then everything is as it was.
    ///
    /// - `ForeignRecord` (10): no call made the record, or tables, rings or rooms have other
    ///   lengths.
    /// - `OutputLength` (20): `out` has not `ivector_dim` places.
    /// - `NotReady` (21): the frame is not there yet, or waits for its right context.
    /// - `AboveHighest` (22): fetches are weighted, and no change has reached the frame.
    pub fn fetch(
        &mut self,
        frame: usize,
        tables: LentTables<'_>,
        out: &mut [u32],
    ) -> Result<Fetched, Refusal>
        ensures call { after_fetch result self.new out.new
            ≡ fetched_by self.old out.old
            (fetch_of self.old (tables_in tables.entry) frame (length out.old)) }
        ensures scratch { ((fetch_of self.old (tables_in tables.entry) frame (length out.old)).refusal ≡ 0 → ⊥)
            → self.new.scratch.now ≡ self.old.scratch.now }
        ensures scratch_length { length self.new.scratch.now ≡ length self.old.scratch.now }
        ensures few { Few result self.new }
        ensures loans { SameRooms self.old self.new }
    {
        self.fetch_refusal(frame, tables, out.len())?;
        let nan_likelihoods = self.bring_in(frame, tables, out.len());
        let not_finite = self.write_current(out);
        Ok(Fetched {
            not_finite,
            nan_likelihoods,
        })
    }
}
