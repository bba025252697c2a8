//! What the calls on a stream refuse, but for the fetch, and how a push stores its frame.

ghost use Rattle.std.specs.Prelude.{◌≡◌, false, not, ◌||◌, ◌⊎◌, List, ◌+◌, ◌-◌, ◌<◌, ◌≤◌, length, leb, ltb, Float};
ghost use Rattle.std.specs.Float.Ieee.Scale.{finite};
ghost use Rattle.loops.specs.Lists.{build, any_of};
ghost use Rattle.loops.specs.Refusal.{first_of};
ghost use Rattle.loops.specs.Ring.{rows_in, place, put};
ghost use Rattle.floats.specs.Operators.{◌+₆₄◌, at};
ghost use Rattle.definition.specs.Number.{refused_by};
ghost use Rattle.definition.specs.Machine.{frames_held, rows_held, waiting_room, push_tests};
ghost use Rattle.definition.specs.Stream.{new_refusal};
ghost use Rattle.program.specs.Rooms.{ring_at};
ghost use Rattle.stream.specs.Stream.{record_of, rings_of};
ghost use Rattle.program.specs.Calls.{record_tests, push_frame, update_frame_weights, set_cmn_window};

use crate::stream_rooms::Stream;
use algebra::basics;
use definition::{Dimensions, IvectorInfo, Refusal, RingLengths, RoomLengths, TableLengths, need};

// ---- a fresh stream

/// What a fresh stream refuses: `ForeignRecord` for tables or a record that no load made,
/// `ShortRoom` for rooms that are too short.
#[tactic(auto, unfolding(loops::specs::Refusal::first_of, definition::specs::Stream::new_refusal))]
pub fn new_refusal(
    info: IvectorInfo,
    tables: TableLengths,
    lengths: RoomLengths,
) -> Result<(), Refusal>
    ensures { refused_by result ≡ new_refusal info tables lengths }
{
    let same = limits::same_tables(tables, info.tables);
    need(same, Refusal::ForeignRecord)?;
    need(limits::record_sound(info), Refusal::ForeignRecord)?;
    need(
        limits::tables_fit(info.opts, info.dims, info.tables),
        Refusal::ShortRoom,
    )?;
    let fits = limits::rooms_fit(info.dims, lengths);
    need(fits, Refusal::ShortRoom)
}

// ---- push

// Whether `bad` holds or x is not finite. A function of its own: so the loop has no branch.
#[inline(always)]
fn or_not_finite(bad: bool, x: f32) -> bool
    ensures { result ≡ (bad || not (finite x)) }
{
    bad || !floats::is_finite(x)
}

// No early exit, and by index: so the loop takes several numbers at a time.
fn any_not_finite(x: &[f32]) -> bool
    ensures { result ≡ any_of (λ v. not (finite v)) x.now }
{
    let mut bad = false;
    for i in 0..x.len() {
        bad = or_not_finite(bad, x[i]);
    }
    bad
}

// What a push refuses beside `ForeignRecord`. `own` has the lengths of the stream's rings. The
// record is not passed, so that it is not copied.
#[tactic(auto, unfolding(loops::specs::Refusal::first_of, definition::specs::Machine::push_tests))]
fn push_tests(
    d: Dimensions,
    own: RingLengths,
    longest: usize,
    accepted: usize,
    mark: usize,
    frame: &[f32],
) -> Result<(), Refusal>
    requires { (0 < d.base_dim) × (d.base_dim ≤ 64) × (accepted ≤ 1000000000) × (mark ≤ 1000000000)
        × (frames_held accepted mark ≤ rows_in own.frames d.base_dim)
        × (rows_held longest accepted mark ≤ rows_in own.rows d.base_dim) }
    ensures { refused_by result ≡ first_of (push_tests d own longest accepted mark frame.now) }
{
    need(frame.len() == d.base_dim, Refusal::FrameLength)?;
    need(!any_not_finite(frame), Refusal::FrameNumber)?;
    need(accepted != 1000000000, Refusal::LastFrame)?;
    let frames_held = limits::frames_held(accepted, mark);
    need(
        (frames_held + 1) * d.base_dim <= own.frames,
        Refusal::FramesFull,
    )?;
    let rows_held = limits::rows_held(longest, accepted, mark);
    need((rows_held + 1) * d.base_dim <= own.rows, Refusal::RowsFull)
}

// Stores a frame from place a on. By index: the library's copy would call `memmove`, which the
// archive asks of no host.
#[tactic(auto, using(loops::proofs::Fill::puts))]
fn put_frame(frames: &mut [f32], a: usize, frame: &[f32])
    requires { a + length frame.now ≤ length frames.old }
    ensures { frames.new ≡ put a frame.now frames.old }
{
    for d in 0..frame.len() {
        frames[a + d] = frame[d];
    }
}

// Adds a frame to the prefix row at `last`, into the row at `next`. The frame is finite: so the
// cast needs no test for a NaN.
fn add_frame(rows: &mut [f64], last: usize, next: usize, frame: &[f32])
    requires { (last + length frame.now ≤ length rows.old)
        × (next + length frame.now ≤ length rows.old)
        × ((last + length frame.now ≤ next) ⊎ (next + length frame.now ≤ last))
        × (any_of (λ v. not (finite v)) frame.now ≡ false) }
    ensures { rows.new
        ≡ put next (build (length frame.now) (λ d. at rows.old (last + d) +₆₄ at frame.now d))
        rows.old }
{
    // by index: reads and writes one slice
    for d in 0..frame.len() {
        rows[next + d] = rows[last + d] + frame[d] as f64;
    }
}

/// Stores a frame at its place of the ring, and its prefix row behind the last one.
pub fn store_frame(frames: &mut [f32], rows: &mut [f64], accepted: usize, frame: &[f32])
    requires { (0 < length frame.now) × (length frame.now ≤ 64) × (accepted ≤ 1000000000)
        × (0 < rows_in (length frames.old) (length frame.now))
        × (2 ≤ rows_in (length rows.old) (length frame.now))
        × (any_of (λ v. not (finite v)) frame.now ≡ false) }
    ensures { (
        let x : List Float = frame.now in
        (frames.new ≡ put (place (length frames.old) (length x) accepted) x frames.old)
        × (rows.new ≡ put (place (length rows.old) (length x) (accepted + 1))
        (build (length x) (λ d. ring_at (length x) rows.old accepted d +₆₄ at x d)) rows.old)) }
{
    let dim = frame.len();
    let a = basics::ring_place(frames.len(), dim, accepted);
    put_frame(frames, a, frame);
    let last = basics::ring_place(rows.len(), dim, accepted);
    let next = basics::row_after(rows.len(), dim, last);
    add_frame(rows, last, next, frame);
}

// ---- change

// Whether a frame is `limit` or more.
#[tactic(auto, unfolding(loops::specs::Lists::any_of))]
fn any_from(frames: &[usize], limit: usize) -> bool
    ensures { result ≡ any_of (leb limit) frames.now }
{
    frames.iter().any(|&f| limit <= f)
}

// Whether a frame less `left` is below `mark`.
#[tactic(auto, unfolding(loops::specs::Lists::any_of))]
fn any_below(frames: &[usize], left: usize, mark: usize) -> bool
    ensures { result ≡ any_of (λ f. ltb (f - left) mark) frames.now }
{
    frames.iter().any(|&f| f.saturating_sub(left) < mark)
}

// Whether the waiting room has places for n changes more.
#[tactic(auto, using(crate::proofs::Refusals::room_is))]
fn has_places(own: RingLengths, waiting: usize, n: usize) -> bool
    ensures { result ≡ not (ltb (waiting_room own) (waiting + n)) }
{
    let room = own.waiting_frames.min(own.waiting_weights);
    n <= room && waiting <= room - n
}

// ---- what the calls refuse

impl Stream<'_> {
    /// `ForeignRecord`, which every call asks: the rings have other lengths than the record states,
    /// or no call made the record.
    #[inline(always)]
    #[tactic(auto, unfolding(loops::specs::Refusal::first_of))]
    pub fn plain_refusal(&self) -> Result<(), Refusal>
        ensures { refused_by result
            ≡ first_of (record_tests (record_of self.now) (rings_of self.now)) }
    {
        let lent = RingLengths {
            frames: self.frames.len(),
            rows: self.rows.len(),
            waiting_frames: self.waiting_frames.len(),
            waiting_weights: self.waiting_weights.len(),
        };
        let own = limits::same_rings(lent, self.record.lengths.rings);
        need(own, Refusal::ForeignRecord)?;
        need(
            !limits::is_foreign(self.record, self.waiting_frames),
            Refusal::ForeignRecord,
        )
    }

    /// What a push refuses.
    #[inline(always)]
    #[tactic(auto, unfolding(loops::specs::Refusal::first_of, program::specs::Calls::push_frame))]
    pub fn push_refusal(&self, frame: &[f32]) -> Result<(), Refusal>
        ensures { refused_by result
            ≡ (push_frame (record_of self.now) (rings_of self.now) frame.now).refusal }
    {
        self.plain_refusal()?;
        push_tests(
            self.record.info.dims,
            self.record.lengths.rings,
            self.record.longest,
            self.record.accepted,
            self.record.mark,
            frame,
        )
    }

    /// What a change call refuses.
    #[tactic(auto, unfolding(loops::specs::Refusal::first_of, program::specs::Calls::update_frame_weights, definition::specs::Machine::change_tests))]
    pub fn change_refusal(
        &self,
        delta_frames: &[usize],
        delta_weights: &[f32],
    ) -> Result<(), Refusal>
        ensures { refused_by result
            ≡ (update_frame_weights (record_of self.now) (rings_of self.now)
            delta_frames.now delta_weights.now).refusal }
    {
        self.plain_refusal()?;
        need(
            delta_frames.len() == delta_weights.len() && delta_frames.len() <= 384,
            Refusal::ChangeList,
        )?;
        need(
            !any_from(delta_frames, 1000000000) && !any_not_finite(delta_weights),
            Refusal::ChangeNumber,
        )?;
        need(
            !any_below(delta_frames, 0, self.record.floor),
            Refusal::Forgotten,
        )?;
        need(
            !any_below(
                delta_frames,
                self.record.info.opts.left_context,
                self.record.mark,
            ),
            Refusal::FrameGone,
        )?;
        need(
            has_places(
                self.record.lengths.rings,
                self.record.waiting,
                delta_frames.len(),
            ),
            Refusal::WaitingFull,
        )
    }

    /// What a new window refuses.
    #[tactic(auto, unfolding(loops::specs::Refusal::first_of, program::specs::Calls::set_cmn_window, definition::specs::Machine::window_tests))]
    pub fn window_refusal(&self, window: usize) -> Result<(), Refusal>
        ensures { refused_by result
            ≡ (set_cmn_window (record_of self.now) (rings_of self.now) window).refusal }
    {
        self.plain_refusal()?;
        need(limits::window_in_range(window), Refusal::WindowRange)?;
        need(
            window <= self.record.longest || self.record.mark < self.record.longest,
            Refusal::OldWindow,
        )
    }
}
