//! The rooms that calls are lent. A length that a room has no places for is cut to the room; the
//! answer then shows it.
use definition::LentTables;

/// A model's tables.
#[derive(Drop)]
pub(crate) struct Tables {
    pub(crate) gconsts: [f32; 16],
    pub(crate) means_invvars_t: [f32; 64],
    pub(crate) inv_vars_t: [f32; 64],
    pub(crate) sigma_inv_m: [f64; 128],
    pub(crate) u: [f64; 128],
    pub(crate) lda_t: [f32; 128],
    pub(crate) lda_offset: [f32; 16],
    pub(crate) global_mean_stats: [f64; 16],
}

impl Tables {
    pub(crate) fn new() -> Tables {
        Tables {
            gconsts: [0.0; 16],
            means_invvars_t: [0.0; 64],
            inv_vars_t: [0.0; 64],
            sigma_inv_m: [0.0; 128],
            u: [0.0; 128],
            lda_t: [0.0; 128],
            lda_offset: [0.0; 16],
            global_mean_stats: [0.0; 16],
        }
    }

    pub(crate) fn lent(&self) -> LentTables<'_> {
        LentTables {
            gconsts: &self.gconsts,
            means_invvars_t: &self.means_invvars_t,
            inv_vars_t: &self.inv_vars_t,
            sigma_inv_m: &self.sigma_inv_m,
            u: &self.u,
            lda_t: &self.lda_t,
            lda_offset: &self.lda_offset,
            global_mean_stats: &self.global_mean_stats,
        }
    }
}

/// A stream's rooms.
#[derive(Drop)]
pub(crate) struct Rooms {
    pub(crate) frames: [f32; 256],
    pub(crate) rows: [f64; 256],
    pub(crate) waiting_frames: [usize; 1024],
    pub(crate) waiting_weights: [f32; 1024],
    pub(crate) cmvn_stats: [f64; 16],
    pub(crate) linear: [f64; 16],
    pub(crate) quadratic: [f64; 64],
    pub(crate) current: [f64; 16],
    pub(crate) scratch: [f64; 128],
}

impl Rooms {
    pub(crate) fn new() -> Rooms {
        Rooms {
            frames: [0.0; 256],
            rows: [0.0; 256],
            waiting_frames: [0; 1024],
            waiting_weights: [0.0; 1024],
            cmvn_stats: [0.0; 16],
            linear: [0.0; 16],
            quadratic: [0.0; 64],
            current: [0.0; 16],
            scratch: [0.0; 128],
        }
    }
}

/// A silence table's rooms, and its silence phones.
#[derive(Drop)]
pub(crate) struct TableRooms {
    pub(crate) phones: [i32; 64],
    pub(crate) known: [bool; 512],
    pub(crate) is_silence: [bool; 512],
    pub(crate) current_weight: [f32; 512],
}

impl TableRooms {
    pub(crate) fn new() -> TableRooms {
        TableRooms {
            phones: [0; 64],
            known: [false; 512],
            is_silence: [false; 512],
            current_weight: [0.0; 512],
        }
    }
}
