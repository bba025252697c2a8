//! The slices that a call on a silence table is lent.

ghost use Rattle.std.specs.Prelude.{◌≡◌, ◌≤◌, length};
ghost use Rattle.rounds.specs.Inner.SilenceWeighting.{status_at, weight_at};

use definition::DecoderFrame;

/// A silence table: place k is decoder frame k.
#[derive(Drop)]
pub struct SilenceRooms<'a> {
    /// Whether a path has named the frame.
    pub known: &'a mut [bool],
    /// Whether the path calls it silence.
    pub is_silence: &'a mut [bool],
    /// The weight that the frame was given last.
    pub current_weight: &'a mut [f32],
}

/// The segments of the best path: phone, first decoder frame, and the frame after the last.
#[derive(Clone, Copy)]
pub struct LentPath<'a> {
    pub phones: &'a [i32],
    pub starts: &'a [usize],
    pub ends: &'a [usize],
}

impl SilenceRooms<'_> {
    /// Whether frame `k` of a table of `n` frames is silence; `None` where that is not known.
    #[tactic(auto, unfolding(crate::specs::Inner::SilenceWeighting::place_at))]
    pub fn status(&self, n: DecoderFrame, k: DecoderFrame) -> Option<bool>
        requires known { n.0 ≤ length self.now.known.now }
        requires is_silence { n.0 ≤ length self.now.is_silence.now }
        ensures { result ≡ status_at n.0 self.now.known.now self.now.is_silence.now k.0 }
    {
        if k.0 < n.0 && self.known[k.0] {
            Some(self.is_silence[k.0])
        } else {
            None
        }
    }

    /// The current weight of frame `k` of a table of `n` frames; 0 past its end.
    #[tactic(auto, unfolding(crate::specs::Inner::SilenceWeighting::place_at))]
    pub fn weight(&self, n: DecoderFrame, k: DecoderFrame) -> f32
        requires { n.0 ≤ length self.now.current_weight.now }
        ensures { result ≡ weight_at n.0 self.now.current_weight.now k.0 }
    {
        if k.0 < n.0 {
            self.current_weight[k.0]
        } else {
            0.0
        }
    }
}
