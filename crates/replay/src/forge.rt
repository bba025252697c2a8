//! The lines that forge what the next call is told: a length, a field of the record, the waiting
//! frames.
use super::session::Session;
use definition::{IvectorInfo, IvectorStream};
use script::{Held, Words};

fn forge_model(info: &mut IvectorInfo, field: &[u8], v: usize) {
    match field {
        b"left" => info.opts.left_context = v,
        b"right" => info.opts.right_context = v,
        b"window" => info.opts.cmn_window = v,
        b"global" => info.opts.global_frames = v,
        b"gselect" => info.opts.num_gselect = v,
        b"iters" => info.opts.num_cg_iters = v,
        b"minpost" => info.opts.min_post = script::float(v),
        b"scale" => info.opts.posterior_scale = script::float(v),
        b"maxcount" => info.opts.max_count = script::double(v),
        b"energy" => info.opts.min_energy = script::float(v),
        b"gaussg" => info.dims.num_gauss = v,
        b"gausse" => info.dims.ext_gauss = v,
        b"feat" => info.dims.feat_dim = v,
        b"ivec" => info.dims.ivector_dim = v,
        b"base" => info.dims.base_dim = v,
        b"ldacols" => info.dims.lda_cols = v,
        _ => {}
    }
}

fn forge_stream(s: &mut IvectorStream, field: &[u8], v: usize) {
    match field {
        b"accepted" => s.accepted = v,
        b"next" => s.num_frames_stats = v,
        b"mark" => s.mark = v,
        b"floor" => s.floor = v,
        b"window" => s.window = v,
        b"longest" => s.longest = v,
        _ => forge_model(&mut s.info, field, v),
    }
}

impl<'a> Session<'a> {
    /// `x n FIELD V`, `x r K D`, `x w n f1 w1 .. fn wn`
    pub(crate) fn forge(&mut self, words: &mut Words<'_>) {
        // the letter counts where no space follows it, too
        let letter = script::byte_at(words.rest, 0);
        words.word();
        match letter {
            b'w' => self.forge_waiting(words),
            b'r' => self.forge_length(words),
            _ => self.forge_field(words),
        }
    }

    fn forge_field(&mut self, words: &mut Words<'_>) {
        let field = words.word();
        let v = words.number(10);
        match &mut self.told.held {
            Held::Stream(s) => forge_stream(s, field, v),
            Held::Model(info) => forge_model(info, field, v),
            Held::Nothing => {}
        }
        self.forged = true;
    }

    fn forge_length(&mut self, words: &mut Words<'_>) {
        let room = words.number(10);
        let by = words.signed();
        self.told.lengths.move_by(room, by);
        self.forged = true;
    }

    /// The next call is lent another room of waiting frames.
    fn forge_waiting(&mut self, words: &mut Words<'_>) {
        let n = words.number(10);
        // by index: words past the end of the room are read too
        for i in 0..n {
            let frame = words.number(10);
            words.word();
            if i < self.rooms.forged_frames.len() {
                self.rooms.forged_frames[i] = frame;
            }
        }
        if let Held::Stream(s) = &mut self.told.held {
            s.waiting = n;
            self.forged = true;
            self.waiting_forged = true;
        }
    }
}
