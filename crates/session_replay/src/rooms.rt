//! What a session is lent: tables, a stream's rooms and scratch, as long as a model needs them, and
//! longer or shorter by what a line says.
use definition::{Dimensions, IvectorOptions, RoomLengths, TableLengths};
use model::memory;
use script::{Words, moved};
use std::alloc::{AllocError, Global};

/// The lengths of the tables, of the load's scratch, and of the rooms.
#[derive(Clone, Copy, Default)]
pub(crate) struct Lengths {
    pub(crate) tables: TableLengths,
    pub(crate) load_scratch: usize,
    pub(crate) rooms: RoomLengths,
}

/// The numbers that any one of them may have here.
const MOST: usize = 1048576;

impl Lengths {
    /// Those that a model needs; none where it has no such dimensions.
    pub(crate) fn needed(opts: IvectorOptions, dims: Dimensions) -> Lengths {
        let tables = memory::tables_needed(opts, dims);
        let rooms = memory::rooms_needed(dims, 1, 2, 0);
        Lengths {
            tables: tables.tables,
            load_scratch: tables.scratch,
            rooms: rooms.lengths,
        }
    }

    /// `d0 .. d7`
    pub(crate) fn move_tables(&mut self, words: &mut Words<'_>) {
        let z = &mut self.tables;
        z.gconsts = moved(z.gconsts, words.signed());
        z.means_invvars_t = moved(z.means_invvars_t, words.signed());
        z.inv_vars_t = moved(z.inv_vars_t, words.signed());
        z.sigma_inv_m = moved(z.sigma_inv_m, words.signed());
        z.u = moved(z.u, words.signed());
        z.lda_t = moved(z.lda_t, words.signed());
        z.lda_offset = moved(z.lda_offset, words.signed());
        z.global_mean_stats = moved(z.global_mean_stats, words.signed());
    }

    /// `FL RL WF WW c0 .. c4`
    pub(crate) fn move_rooms(&mut self, words: &mut Words<'_>) {
        let r = &mut self.rooms.rings;
        r.frames = words.number(10);
        r.rows = words.number(10);
        r.waiting_frames = words.number(10);
        r.waiting_weights = words.number(10);
        let e = &mut self.rooms.estimate;
        e.cmvn_stats = moved(e.cmvn_stats, words.signed());
        e.linear = moved(e.linear, words.signed());
        e.quadratic = moved(e.quadratic, words.signed());
        e.current = moved(e.current, words.signed());
        e.scratch = moved(e.scratch, words.signed());
    }

    /// Whether each of them fits here.
    pub(crate) fn fit(&self) -> bool {
        let t = self.tables;
        let r = self.rooms.rings;
        let e = self.rooms.estimate;
        [
            t.gconsts,
            t.means_invvars_t,
            t.inv_vars_t,
            t.sigma_inv_m,
            t.u,
            t.lda_t,
            t.lda_offset,
            t.global_mean_stats,
            self.load_scratch,
            r.frames,
            r.rows,
            r.waiting_frames,
            r.waiting_weights,
            e.cmvn_stats,
            e.linear,
            e.quadratic,
            e.current,
            e.scratch,
        ]
        .iter()
        .all(|n| *n <= MOST)
    }
}

/// A model's tables, and scratch for its load.
#[derive(Drop)]
pub(crate) struct Tables {
    pub(crate) gconsts: Vec<f32>,
    pub(crate) means_invvars_t: Vec<f32>,
    pub(crate) inv_vars_t: Vec<f32>,
    pub(crate) sigma_inv_m: Vec<f64>,
    pub(crate) u: Vec<f64>,
    pub(crate) lda_t: Vec<f32>,
    pub(crate) lda_offset: Vec<f32>,
    pub(crate) global_mean_stats: Vec<f64>,
    pub(crate) scratch: Vec<f64>,
}

impl Tables {
    pub(crate) fn new(alloc: Global, lengths: &Lengths) -> Result<Tables, AllocError> {
        let z = lengths.tables;
        Ok(Tables {
            gconsts: vec![in alloc; 0.0; z.gconsts]?,
            means_invvars_t: vec![in alloc; 0.0; z.means_invvars_t]?,
            inv_vars_t: vec![in alloc; 0.0; z.inv_vars_t]?,
            sigma_inv_m: vec![in alloc; 0.0; z.sigma_inv_m]?,
            u: vec![in alloc; 0.0; z.u]?,
            lda_t: vec![in alloc; 0.0; z.lda_t]?,
            lda_offset: vec![in alloc; 0.0; z.lda_offset]?,
            global_mean_stats: vec![in alloc; 0.0; z.global_mean_stats]?,
            scratch: vec![in alloc; 0.0; lengths.load_scratch]?,
        })
    }
}

/// A stream's rooms.
#[derive(Drop)]
pub(crate) struct Rooms {
    pub(crate) frames: Vec<f32>,
    pub(crate) rows: Vec<f64>,
    pub(crate) waiting_frames: Vec<usize>,
    pub(crate) waiting_weights: Vec<f32>,
    pub(crate) cmvn_stats: Vec<f64>,
    pub(crate) linear: Vec<f64>,
    pub(crate) quadratic: Vec<f64>,
    pub(crate) current: Vec<f64>,
    pub(crate) scratch: Vec<f64>,
}

impl Rooms {
    pub(crate) fn new(alloc: Global, z: RoomLengths) -> Result<Rooms, AllocError> {
        let r = z.rings;
        let e = z.estimate;
        Ok(Rooms {
            frames: vec![in alloc; 0.0; r.frames]?,
            rows: vec![in alloc; 0.0; r.rows]?,
            waiting_frames: vec![in alloc; 0; r.waiting_frames]?,
            waiting_weights: vec![in alloc; 0.0; r.waiting_weights]?,
            cmvn_stats: vec![in alloc; 0.0; e.cmvn_stats]?,
            linear: vec![in alloc; 0.0; e.linear]?,
            quadratic: vec![in alloc; 0.0; e.quadratic]?,
            current: vec![in alloc; 0.0; e.current]?,
            scratch: vec![in alloc; 0.0; e.scratch]?,
        })
    }
}
