//! The rooms that calls are lent, and how much of each.
use definition::{Dimensions, IvectorOptions, LentTables};
use script::{Signed, Words, front};
use std::mem;

/// The length of each room that a call is lent: rooms 0 to 7 are a model's tables, 8 to 16 a
/// stream's rooms, in the order of FORMAT.md.
#[derive(Clone, Copy)]
pub(crate) struct Lengths(pub(crate) [usize; 17]);

/// The longest rooms that fit. Each room has `SPARE` places more, for a length that a script
/// forges.
const MOST: [usize; 17] = [
    1024, 2048, 2048, 4096, 16512, 4352, 64, 65, 4080, 8176, 4080, 4080, 112, 144, 8384, 144, 16384,
];

const SPARE: usize = 16;

impl Lengths {
    pub(crate) const NONE: Lengths = Lengths([0; 17]);

    /// The lengths that a model needs of tables and rooms. Those of the rings a script gives
    /// itself.
    pub(crate) fn needs(opts: IvectorOptions, dims: Dimensions) -> Lengths {
        let Dimensions {
            num_gauss,
            ext_gauss,
            feat_dim,
            ivector_dim,
            base_dim,
            lda_cols: _,
        } = dims;
        let row = base_dim.saturating_add(1);
        let means = num_gauss.saturating_mul(feat_dim);
        let width = opts
            .left_context
            .saturating_add(1)
            .saturating_add(opts.right_context);
        let lda = base_dim.saturating_mul(width).saturating_mul(feat_dim);
        let sigma_inv_m = ext_gauss
            .saturating_mul(feat_dim)
            .saturating_mul(ivector_dim);
        let packed = ivector_dim.saturating_mul(ivector_dim.saturating_add(1)) / 2;
        let u = ext_gauss.saturating_mul(packed);
        let scratch = means.max(ivector_dim.saturating_mul(ivector_dim));
        Lengths([
            num_gauss,
            means,
            means,
            sigma_inv_m,
            u,
            lda,
            feat_dim,
            row,
            0,
            0,
            0,
            0,
            row,
            ivector_dim,
            packed,
            ivector_dim,
            scratch,
        ])
    }

    /// Moves the length of one room.
    pub(crate) fn move_by(&mut self, room: usize, by: Signed) {
        if room < self.0.len() {
            self.0[room] = script::moved(self.0[room], by);
        }
    }

    /// Moves the lengths of rooms `from` to before `to`, each by the script's next number.
    pub(crate) fn read(&mut self, words: &mut Words<'_>, from: usize, to: usize) {
        // by index: a script names a room by its number
        for room in from..to {
            let by = words.signed();
            self.move_by(room, by);
        }
    }

    /// Whether rooms `from` to before `to` fit.
    pub(crate) fn fit(&self, from: usize, to: usize) -> bool {
        self.0
            .iter()
            .zip(&MOST)
            .take(to)
            .skip(from)
            .all(|(n, most)| n <= most)
    }
}

/// A model's tables.
#[derive(Drop)]
pub(crate) struct Tables {
    pub(crate) gconsts: [f32; MOST[0] + SPARE],
    pub(crate) means_invvars_t: [f32; MOST[1] + SPARE],
    pub(crate) inv_vars_t: [f32; MOST[2] + SPARE],
    pub(crate) sigma_inv_m: [f64; MOST[3] + SPARE],
    pub(crate) u: [f64; MOST[4] + SPARE],
    pub(crate) lda_t: [f32; MOST[5] + SPARE],
    pub(crate) lda_offset: [f32; MOST[6] + SPARE],
    pub(crate) global_mean_stats: [f64; MOST[7] + SPARE],
}

impl Tables {
    pub(crate) fn new() -> Tables {
        Tables {
            gconsts: [0.0; MOST[0] + SPARE],
            means_invvars_t: [0.0; MOST[1] + SPARE],
            inv_vars_t: [0.0; MOST[2] + SPARE],
            sigma_inv_m: [0.0; MOST[3] + SPARE],
            u: [0.0; MOST[4] + SPARE],
            lda_t: [0.0; MOST[5] + SPARE],
            lda_offset: [0.0; MOST[6] + SPARE],
            global_mean_stats: [0.0; MOST[7] + SPARE],
        }
    }

    pub(crate) fn lent(&self, z: &Lengths) -> LentTables<'_> {
        LentTables {
            gconsts: front(&self.gconsts, z.0[0]),
            means_invvars_t: front(&self.means_invvars_t, z.0[1]),
            inv_vars_t: front(&self.inv_vars_t, z.0[2]),
            sigma_inv_m: front(&self.sigma_inv_m, z.0[3]),
            u: front(&self.u, z.0[4]),
            lda_t: front(&self.lda_t, z.0[5]),
            lda_offset: front(&self.lda_offset, z.0[6]),
            global_mean_stats: front(&self.global_mean_stats, z.0[7]),
        }
    }
}

/// A stream's rooms.
#[derive(Drop)]
pub(crate) struct Rooms {
    pub(crate) frames: [f32; MOST[8] + SPARE],
    pub(crate) rows: [f64; MOST[9] + SPARE],
    pub(crate) waiting_frames: [usize; MOST[10] + SPARE],
    pub(crate) waiting_weights: [f32; MOST[11] + SPARE],
    pub(crate) cmvn_stats: [f64; MOST[12] + SPARE],
    pub(crate) linear: [f64; MOST[13] + SPARE],
    pub(crate) quadratic: [f64; MOST[14] + SPARE],
    pub(crate) current: [f64; MOST[15] + SPARE],
    pub(crate) scratch: [f64; MOST[16] + SPARE],
    /// Waiting frames that a script may have lent in place of the stream's.
    pub(crate) forged_frames: [usize; MOST[10] + SPARE],
}

impl Rooms {
    pub(crate) fn new() -> Rooms {
        Rooms {
            frames: [0.0; MOST[8] + SPARE],
            rows: [0.0; MOST[9] + SPARE],
            waiting_frames: [0; MOST[10] + SPARE],
            waiting_weights: [0.0; MOST[11] + SPARE],
            cmvn_stats: [0.0; MOST[12] + SPARE],
            linear: [0.0; MOST[13] + SPARE],
            quadratic: [0.0; MOST[14] + SPARE],
            current: [0.0; MOST[15] + SPARE],
            scratch: [0.0; MOST[16] + SPARE],
            forged_frames: [0; MOST[10] + SPARE],
        }
    }

    /// Makes them as they were at first.
    pub(crate) fn clear(&mut self) {
        self.frames.fill(0.0);
        self.rows.fill(0.0);
        self.waiting_frames.fill(0);
        self.waiting_weights.fill(0.0);
        self.cmvn_stats.fill(0.0);
        self.linear.fill(0.0);
        self.quadratic.fill(0.0);
        self.current.fill(0.0);
        self.scratch.fill(0.0);
        self.forged_frames.fill(0);
    }

    /// Puts the forged waiting frames in place of the stream's, or back.
    pub(crate) fn swap_waiting(&mut self) {
        mem::swap(&mut self.waiting_frames, &mut self.forged_frames);
    }
}
