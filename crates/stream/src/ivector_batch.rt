//! The frames that a fetch brings in: each is viewed, weighed and added to the batch's sums.

mod batch;
mod intake;

ghost use Rattle.std.specs.Prelude.{◌≡◌, ◌+◌, ◌<◌, length};
ghost use Rattle.definition.specs.Estimate.{entries, nans_over};
ghost use Rattle.gmm.specs.Inner.DiagGmmRooms.{SameLikes};
ghost use Rattle.gmm.specs.Batch.{Logged};
ghost use Rattle.gmm.specs.Inner.BatchSumsRooms.{SlotsIn, SumsIn, Grown, SameSums};
ghost use Rattle.stream.specs.Inner.IvectorBatch.{frame_state, frame_entries, frame_nans};
ghost use Rattle.stream.specs.Fetched.{model_of, frames_of, whole_of, taken_model, taken_frames, taken_whole};

use crate::frame_views::{Features, Lda, StreamView};
pub use batch::{FetchBatch, TakenBatch};
use gmm::batch_sums::{self, LentFeatures, RunningSums};
use gmm::diag_gmm::{DiagGmm, LikeRooms};
pub use intake::{BatchFrame, Intake};

impl FetchBatch<'_> {
    // Adds a frame of the batch to the batch's sums, and returns how many of its likelihoods were
    // NaN. A skipped frame is viewed all the same: its view moves the CMVN state on. `normalized`,
    // `raw` and `rooms` are scratch.
    fn take_frame(
        &self,
        b: BatchFrame,
        cmvn: &mut [f64],
        normalized: &mut [f32],
        raw: &mut [f32],
        rooms: &mut LikeRooms<'_>,
        sums: &mut RunningSums<'_>,
    ) -> usize
        requires there { b.frame < self.now.intake.accepted }
        requires log { Logged b.weight b.ln }
        requires state { length cmvn.old ≡ self.now.info.dims.base_dim + 1 }
        requires features { (length normalized.old ≡ self.now.info.dims.feat_dim)
            × (length raw.old ≡ self.now.info.dims.feat_dim) }
        requires likes { (length rooms.old.likes.now ≡ self.now.info.dims.num_gauss)
            × (length rooms.old.squares.now ≡ self.now.info.dims.num_gauss) }
        requires slots { SlotsIn self.now.info.dims.num_gauss self.now.info.dims.feat_dim sums.old }
        ensures state { cmvn.new
            ≡ frame_state (model_of self.now) (frames_of self.now) b.frame cmvn.old }
        ensures grown { Grown self.now.info.dims.num_gauss self.now.info.dims.feat_dim
            (frame_entries (model_of self.now) (frames_of self.now) b.frame b.weight cmvn.old)
            sums.old sums.new }
        ensures nans { result
            ≡ frame_nans (model_of self.now) (frames_of self.now) b.frame b.weight cmvn.old }
        ensures loans { SameSums sums.old sums.new }
        ensures like_loans { SameLikes rooms.old rooms.new }
    {
        let dims = self.info.dims;
        let t = self.tables;
        let view = StreamView {
            options: self.info.opts,
            dim: dims.base_dim,
            accepted: self.intake.accepted,
            global: t.global_mean_stats,
            frames: self.held.frames,
            rows: self.held.rows,
        };
        let lda = Lda {
            table: t.lda_t,
            offset: t.lda_offset,
        };
        view.lda_frame(Features::Normalized, lda, b.frame, cmvn, normalized);
        view.lda_frame(Features::Raw, lda, b.frame, cmvn, raw);
        let gmm = DiagGmm {
            num_gauss: dims.num_gauss,
            dim: dims.feat_dim,
            gconsts: t.gconsts,
            means_invvars_t: t.means_invvars_t,
            inv_vars_t: t.inv_vars_t,
        };
        let features = LentFeatures { normalized, raw };
        let select = self.info.opts.num_gselect;
        batch_sums::acc_frame(gmm, select, b.weight, b.ln, features, rooms, sums)
    }

    /// Adds the frames of the batch to sums that are still empty. It returns the NaN likelihoods of
    /// all of them: at most 10^9 frames, so that the count is in range.
    pub fn take_batch(
        &self,
        cmvn: &mut [f64],
        rooms: &mut LikeRooms<'_>,
        sums: &mut RunningSums<'_>,
    ) -> usize
        requires state { length cmvn.old ≡ self.now.info.dims.base_dim + 1 }
        requires likes { (length rooms.old.likes.now ≡ self.now.info.dims.num_gauss)
            × (length rooms.old.squares.now ≡ self.now.info.dims.num_gauss) }
        requires none { sums.old.count ≡ 0 }
        requires slots { SlotsIn self.now.info.dims.num_gauss self.now.info.dims.feat_dim sums.old }
        ensures state { cmvn.new
            ≡ (entries (model_of self.now) (frames_of self.now) (whole_of self.now) cmvn.old).0 }
        ensures slots { SlotsIn self.now.info.dims.num_gauss self.now.info.dims.feat_dim sums.new }
        ensures sums { SumsIn self.now.info.dims.feat_dim
            (entries (model_of self.now) (frames_of self.now) (whole_of self.now) cmvn.old).1
            sums.new }
        ensures nans { result
            ≡ nans_over (model_of self.now) (frames_of self.now) (whole_of self.now) cmvn.old }
        ensures loans { SameSums sums.old sums.new }
        ensures like_loans { SameLikes rooms.old rooms.new }
    {
        let o = self.info.opts;
        let d = self.info.dims.feat_dim;
        let ln = floats::ln_f32(o.min_post);
        let places = self.intake.places();
        // a copy: behind the reference each frame would load the record's numbers again
        let batch = *self;
        let mut normalized = [0.0f32; 64];
        let mut raw = [0.0f32; 64];
        let mut nans = 0;
        let mut j = 0;
        // no for: a group of changes takes several places, so a turn says where the next begins
        while j < places {
            let b = batch.intake.frame_at(o, ln, places, j);
            // arrays for the longest features, cut to their length: there is no heap
            let heard = batch.take_frame(b, cmvn, &mut normalized[..d], &mut raw[..d], rooms, sums);
            nans += heard;
            j = b.end;
        }
        nans
    }
}

impl TakenBatch<'_> {
    /// [`FetchBatch::take_batch`] for a batch that is asked for less.
    pub fn take_batch(
        &self,
        cmvn: &mut [f64],
        rooms: &mut LikeRooms<'_>,
        sums: &mut RunningSums<'_>,
    ) -> usize
        requires state { length cmvn.old ≡ self.now.info.dims.base_dim + 1 }
        requires likes { (length rooms.old.likes.now ≡ self.now.info.dims.num_gauss)
            × (length rooms.old.squares.now ≡ self.now.info.dims.num_gauss) }
        requires none { sums.old.count ≡ 0 }
        requires slots { SlotsIn self.now.info.dims.num_gauss self.now.info.dims.feat_dim sums.old }
        ensures state { cmvn.new
            ≡ (entries (taken_model self.now) (taken_frames self.now) (taken_whole self.now) cmvn.old).0 }
        ensures slots { SlotsIn self.now.info.dims.num_gauss self.now.info.dims.feat_dim sums.new }
        ensures sums { SumsIn self.now.info.dims.feat_dim
            (entries (taken_model self.now) (taken_frames self.now) (taken_whole self.now) cmvn.old).1
            sums.new }
        ensures nans { result
            ≡ nans_over (taken_model self.now) (taken_frames self.now) (taken_whole self.now) cmvn.old }
        ensures loans { SameSums sums.old sums.new }
        ensures like_loans { SameLikes rooms.old rooms.new }
    {
        self.fetched().take_batch(cmvn, rooms, sums)
    }
}
