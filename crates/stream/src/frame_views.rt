//! The frame views of a stream. Frames lie in a ring, prefix rows in another: row t begins at
//! (t mod F) * dim, F being how many rows the room has.

mod view;

ghost use Rattle.std.specs.Prelude.{◌≡◌, ◌+◌, ◌-◌, ◌*◌, ◌<◌, ◌≤◌, true, length, take, drop, if◌then◌else◌};
ghost use Rattle.std.specs.Float.Ieee.{lt};
ghost use Rattle.loops.specs.Inner.{fill};
ghost use Rattle.floats.specs.Operators.{◌-₃₂◌, ◌*₃₂◌, ◌/₆₄◌, at, sum₃₂};
ghost use Rattle.floats.specs.Narrow.{narrowed};
ghost use Rattle.definition.specs.Options.{width};
ghost use Rattle.definition.specs.Views.{smoothed, windowed, cmvn_state, cmvn_frame, splice_at, lda_frame};
ghost use Rattle.program.specs.Rooms.{ring_at};
ghost use Rattle.stream.specs.Rows.{is_normalized, frames_of, spliced_row};
ghost use Rattle.stream.specs.Inner.FrameViews.{Placed, fetched, viewed};

use algebra::basics::{add_scaled, difference, row_after, row_place};
use gmm::table_sums;
use view::Places;
pub use view::{Features, Lda, StreamView};

// n numbers of a ring, from `start` on.
fn row<T>(ring: &[T], start: usize, n: usize) -> &[T]
    requires { start + n ≤ length ring.now }
    ensures { result.now ≡ take (start + n - start) (drop start ring.now) }
{
    let end = start + n;
    &ring[start..end]
}

// What a frame gives to a spliced row: a part of the raw store, from where the frame begins, or of
// the room for normalised rows.
// inlined, as `fetch_frame` and `add_frame` are: the LDA's caller knows which of the two it is
#[inline(always)]
fn spliced_row<'a>(
    raw: &'a [f32],
    normalised: &'a [f32],
    features: Features,
    here: usize,
    dim: usize,
) -> &'a [f32]
    requires raw { here + dim ≤ length raw.now }
    requires normalised { dim ≤ length normalised.now }
    ensures { result.now
        ≡ (if is_normalized features then take dim normalised.now
        else take (here + dim - here) (drop here raw.now)) }
{
    match features {
        Features::Normalized => &normalised[..dim],
        Features::Raw => row(raw, here, dim),
    }
}

// A raw frame less the mean of the CMVN state.
#[tactic(auto, using(loops::proofs::Fill::fills))]
fn raw_less_mean(raw: &[f32], cmvn: &[f64], out: &mut [f32])
    requires { (length cmvn.now ≡ length raw.now + 1) × (length out.old ≡ length raw.now) }
    ensures { out.new
        ≡ fill (length raw.now)
        (λ d. at raw.now d -₃₂ narrowed (at cmvn.now d /₆₄ at cmvn.now (length raw.now)))
        out.old }
{
    let count = cmvn[raw.len()];
    // by index (limit: zip)
    for d in 0..raw.len() {
        out[d] = raw[d] - floats::narrow(cmvn[d] / count);
    }
}

// What the LDA starts from. The offset may be longer than the sums.
fn copy_offset(offset: &[f32], out: &mut [f32])
    requires { length out.old ≤ length offset.now }
    ensures { out.new ≡ fill (length out.old) (at offset.now) out.old }
{
    let n = out.len();
    out.copy_from_slice(&offset[..n]);
}

impl StreamView<'_> {
    // The CMVN state: that of a frame's window if the frame is loud, else as it was.
    fn cmvn_window(&self, p: Places, cmvn: &mut [f64])
        requires few { p.frame < 1000000000 }
        requires state { length cmvn.old ≡ self.now.dim + 1 }
        requires placed { Placed self.now true p }
        ensures { cmvn.new
            ≡ (if lt self.now.options.min_energy (ring_at self.now.dim self.now.frames.now p.frame 0)
            then windowed self.now.options self.now.dim (frames_of self.now) p.frame
            else cmvn.old) }
    {
        let dim = self.dim;
        let raw = row(self.frames, p.here, dim);
        if raw[0] > self.options.min_energy {
            let lo = (p.frame + 1).saturating_sub(self.options.cmn_window);
            difference(
                row(self.rows, p.high, dim),
                row(self.rows, p.low, dim),
                dim,
                cmvn,
            );
            cmvn[dim] = std::num::nearest_u64_to_f64((p.frame + 1 - lo) as u64);
        }
    }

    // The CMVN state, with the global row added if its count is below the window.
    fn cmvn_smooth(&self, cmvn: &mut [f64])
        requires { length cmvn.old ≡ self.now.dim + 1 }
        ensures { cmvn.new ≡ smoothed self.now.options self.now.dim self.now.global.now cmvn.old }
    {
        let window = std::num::nearest_u64_to_f64(self.options.cmn_window as u64);
        let cur_count = cmvn[self.dim];
        if cur_count < window {
            let from_global = floats::min(
                window - cur_count,
                std::num::nearest_u64_to_f64(self.options.global_frames as u64),
            );
            let scale = from_global / self.global[self.dim];
            add_scaled(scale, self.global, cmvn);
        }
    }

    // A normalised frame. The window is taken anew only for a frame whose raw c0 is above
    // `min_energy`; a quieter one goes by what the fetch before it left, and smooths that again.
    fn cmvn_frame(&self, p: Places, cmvn: &mut [f64], out: &mut [f32])
        requires there { p.frame < self.now.accepted }
        requires state { length cmvn.old ≡ self.now.dim + 1 }
        requires out { length out.old ≡ self.now.dim }
        requires placed { Placed self.now true p }
        ensures state { cmvn.new
            ≡ cmvn_state self.now.options self.now.dim self.now.global.now (frames_of self.now)
            p.frame cmvn.old }
        ensures out { out.new ≡ cmvn_frame self.now.dim (frames_of self.now) p.frame cmvn.new }
    {
        self.cmvn_window(p, cmvn);
        self.cmvn_smooth(cmvn);
        raw_less_mean(row(self.frames, p.here, self.dim), cmvn, out);
    }

    // A frame, fetched: one to be normalised leaves its CMVN state, and its view in the front of
    // the room.
    #[inline(always)]
    fn fetch_frame(&self, features: Features, p: Places, cmvn: &mut [f64], view: &mut [f32])
        requires there { p.frame < self.now.accepted }
        requires state { length cmvn.old ≡ self.now.dim + 1 }
        requires view { self.now.dim ≤ length view.old }
        requires placed { Placed self.now (is_normalized features) p }
        ensures state { cmvn.new
            ≡ fetched self.now.options self.now.dim self.now.global.now (frames_of self.now)
            (is_normalized features) p.frame cmvn.old }
        ensures view { is_normalized features ≡ true
            → take self.now.dim view.new
            ≡ cmvn_frame self.now.dim (frames_of self.now) p.frame cmvn.new }
    {
        match features {
            Features::Normalized => self.cmvn_frame(p, cmvn, &mut view[..self.dim]),
            Features::Raw => {}
        }
    }

    // A frame, fetched, and added to the LDA's sums. `part` is the rows of the LDA's table for this
    // frame; `view` has room for its normalised numbers, and raw ones are added where they lie.
    #[inline(always)]
    fn add_frame(
        &self,
        features: Features,
        p: Places,
        part: &[f32],
        cmvn: &mut [f64],
        view: &mut [f32],
        out: &mut [f32],
    )
        requires there { p.frame < self.now.accepted }
        requires state { length cmvn.old ≡ self.now.dim + 1 }
        requires view { self.now.dim ≤ length view.old }
        requires part { self.now.dim * length out.old ≤ length part.now }
        requires placed { Placed self.now (is_normalized features) p }
        ensures state { cmvn.new
            ≡ fetched self.now.options self.now.dim self.now.global.now (frames_of self.now)
            (is_normalized features) p.frame cmvn.old }
        ensures out { out.new
            ≡ fill (length out.old) (λ r. sum₃₂ (at out.old r) self.now.dim
            (λ c. at part.now (c * length out.old + r)
            *₃₂ at (viewed self.now.dim (frames_of self.now) (is_normalized features) p.frame
            cmvn.new) c)) out.old }
    {
        self.fetch_frame(features, p, cmvn, view);
        let spliced = spliced_row(self.frames, view, features, p.here, self.dim);
        table_sums::add_rows(part, spliced, |v| v, self.dim, out);
    }

    // The frame at place n of the row spliced around t, the ends clamped to frames 0 and last.
    fn splice_at(&self, t: usize, n: usize) -> usize
        requires { (t < self.now.accepted) × (n < 1000000000) }
        ensures { (result ≡ splice_at self.now.options self.now.accepted t n)
            × (result < self.now.accepted) }
    {
        (t + n)
            .saturating_sub(self.options.left_context)
            .min(self.accepted - 1)
    }

    // The places of frame u, of whose window only a frame to be normalised has need.
    fn first_places(&self, features: Features, u: usize) -> Places
        requires { u < 1000000000 }
        ensures frame { result.frame ≡ u }
        ensures placed { Placed self.now (is_normalized features) result }
    {
        let dim = self.dim;
        let here = row_place(self.frames.len(), dim, u);
        match features {
            Features::Normalized => Places {
                frame: u,
                here,
                high: row_place(self.rows.len(), dim, u + 1),
                low: row_place(
                    self.rows.len(),
                    dim,
                    (u + 1).saturating_sub(self.options.cmn_window),
                ),
            },
            Features::Raw => Places {
                frame: u,
                here,
                high: 0,
                low: 0,
            },
        }
    }

    // From a frame's places to those of frame v, which is the same or the one after it: a step and
    // a wrap each, or none.
    fn next_places(&self, features: Features, p: Places, v: usize) -> Places
        requires near { (p.frame ≤ v) × (v ≤ p.frame + 1) }
        requires placed { Placed self.now (is_normalized features) p }
        ensures frame { result.frame ≡ v }
        ensures placed { Placed self.now (is_normalized features) result }
    {
        if v > p.frame {
            let here = row_after(self.frames.len(), self.dim, p.here);
            return match features {
                Features::Normalized => {
                    let rows = self.rows.len();
                    let high = row_after(rows, self.dim, p.high);
                    if v >= self.options.cmn_window {
                        return Places {
                            frame: v,
                            here,
                            high,
                            low: row_after(rows, self.dim, p.low),
                        };
                    }
                    Places {
                        frame: v,
                        here,
                        high,
                        low: p.low,
                    }
                }
                Features::Raw => Places {
                    frame: v,
                    here,
                    high: p.high,
                    low: p.low,
                },
            };
        }
        p
    }

    /// The spliced and LDA-transformed frame t, from raw frames or from normalised ones. The
    /// spliced row is nowhere put together: at each place of it, the frame's numbers are added
    /// where they lie. A repeated frame is fetched again. Where the frames and their windows begin
    /// in the rings is found once, for the first place; from place to place it is a step and a
    /// wrap.
    // inlined: so each caller's kind of features is known in it
    #[inline(always)]
    pub fn lda_frame(
        &self,
        features: Features,
        lda: Lda<'_>,
        t: usize,
        cmvn: &mut [f64],
        out: &mut [f32],
    )
        requires there { t < self.now.accepted }
        requires state { length cmvn.old ≡ self.now.dim + 1 }
        requires table { self.now.dim * width self.now.options * length out.old
            ≤ length lda.table.now }
        requires offset { length out.old ≤ length lda.offset.now }
        ensures state { cmvn.new ≡ (spliced_row self.now features t cmvn.old).0 }
        ensures out { out.new
            ≡ lda_frame (length out.old) lda.entry.table.now lda.entry.offset.now
            (spliced_row self.now features t cmvn.old).1 }
    {
        let dim = self.dim;
        let width = self.options.left_context + 1 + self.options.right_context;
        let d = out.len();
        let size = dim * d;
        // room for the longest frame, as there is no heap: its front is as long as the dimension
        let mut view = [0.0f32; 64];
        copy_offset(lda.offset, out);
        let mut p = self.first_places(features, t.saturating_sub(self.options.left_context));
        // by index: n names the part of the table and the place of the next frame
        for n in 0..width {
            let start = n * size;
            let end = start + size;
            self.add_frame(features, p, &lda.table[start..end], cmvn, &mut view, out);
            let v = self.splice_at(t, n + 1);
            p = self.next_places(features, p, v);
        }
    }
}
