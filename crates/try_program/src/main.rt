//! A load to try the library with. With no argument it reads one input from standard input, three
//! runs of digits parted by blanks, and prints the totals, one to a line, or 33.
//!
//! With an argument it reads a script. A line `i N HEX` is an input of N bytes; its answer is a
//! line with `;` between its parts. A line `h SEED DIM COUNT FRAMES CALLS` has lists filled that
//! are lent for so many numbers and calls; its answer is 33, or 0 and each call: its kind, a push's
//! numbers, the frame of another, a change's weight.
#![tactic(auto)]

use definition::{IvectorInfo, IvectorStream, LentTables, Refusal};
use lists::try_load::{self, LoadSizes};
use lists::try_model;
use lists::try_play::{self, Totals};
use model::ivector_info;
use script::{Script, Words, front, lend, print, print_list};
use std::env::{Env, FillError};
use std::io::{self, Write};
use stream::Stream;

// ---- the model: one Gaussian, one i-vector dimension, no context

/// A model and its tables.
#[derive(Drop)]
struct OpenModel {
    info: IvectorInfo,
    gconsts: [f32; 1],
    means_invvars_t: [f32; 1],
    inv_vars_t: [f32; 1],
    sigma_inv_m: [f64; 1],
    u: [f64; 1],
    lda_t: [f32; 64],
    lda_offset: [f32; 1],
    global_mean_stats: [f64; 65],
}

impl OpenModel {
    /// The model, loaded.
    fn load(lda: &[u8], cmvn: &[u8]) -> Result<OpenModel, Refusal> {
        let mut gconsts = [0.0; 1];
        let mut means_invvars_t = [0.0; 1];
        let mut inv_vars_t = [0.0; 1];
        let mut sigma_inv_m = [0.0; 1];
        let mut u = [0.0; 1];
        let mut lda_t = [0.0; 64];
        let mut lda_offset = [0.0; 1];
        let mut global_mean_stats = [0.0; 65];
        let info = ivector_info::load(
            try_model::options(),
            try_model::gmm(),
            try_model::extractor(),
            lda,
            cmvn,
            &mut gconsts,
            &mut means_invvars_t,
            &mut inv_vars_t,
            &mut sigma_inv_m,
            &mut u,
            &mut lda_t,
            &mut lda_offset,
            &mut global_mean_stats,
            &mut [0.0; 1024],
        )?;
        Ok(OpenModel {
            info,
            gconsts,
            means_invvars_t,
            inv_vars_t,
            sigma_inv_m,
            u,
            lda_t,
            lda_offset,
            global_mean_stats,
        })
    }

    /// Plays a load on a stream with rooms for 64 frames and 80 rows.
    fn play(&self, asked: LoadSizes) -> Result<Totals, Refusal> {
        let dim = asked.dim.min(64);
        let tables = LentTables {
            gconsts: &self.gconsts,
            means_invvars_t: &self.means_invvars_t,
            inv_vars_t: &self.inv_vars_t,
            sigma_inv_m: &self.sigma_inv_m,
            u: &self.u,
            lda_t: &self.lda_t,
            lda_offset: &self.lda_offset,
            global_mean_stats: &self.global_mean_stats,
        };
        let mut frames = [0.0; 4096];
        let mut rows = [0.0; 5120];
        let mut stream = Stream {
            record: &mut IvectorStream::default(),
            frames: lend(&mut frames, dim * 64),
            rows: lend(&mut rows, dim * 80),
            waiting_frames: &mut [0; 64],
            waiting_weights: &mut [0.0; 64],
            cmvn_stats: &mut [0.0; 65],
            linear: &mut [0.0; 1],
            quadratic: &mut [0.0; 1],
            current: &mut [0.0; 1],
            scratch: &mut [0.0; 1024],
        };
        try_play::play(self.info, tables, &mut stream, asked.seed, asked.count)
    }
}

/// What an input asks for, played.
fn totals(text: &[u8]) -> Result<Totals, Refusal> {
    let asked = try_load::read_input(text)?;
    let dim = asked.dim.min(64);
    let mut lda = [0; 271];
    let mut cmvn = [0; 395];
    let lda_bytes = try_model::put_lda(dim, &mut lda);
    let cmvn_bytes = try_model::put_cmvn(dim, &mut cmvn);
    let model = OpenModel::load(front(&lda, lda_bytes), front(&cmvn, cmvn_bytes))?;
    model.play(asked)
}

/// The number of calls of each kind, each refusal that was met with its count, rising, and the
/// greatest number of frames held.
fn answer(writer: &mut impl Write, text: &[u8], between: char) -> io::Result<()> {
    match totals(text) {
        Err(refusal) => {
            let number = refusal.number();
            writeln!(writer, "{number}")
        }
        Ok(totals) => {
            for n in &totals.calls {
                write!(writer, "{n}{between}")?;
            }
            // the first place is for calls that were taken
            for (refusal, n) in totals.refusals.iter().enumerate().skip(1) {
                if *n != 0 {
                    write!(writer, "{refusal} {n}{between}")?;
                }
            }
            let greatest = totals.greatest;
            writeln!(writer, "{greatest}")
        }
    }
}

// ---- a script of inputs

/// The lists that a seed fills: the numbers of all pushes, and of each call its kind, its frame and
/// its weight.
#[derive(Clone, Copy)]
struct Lists<'a> {
    dim: usize,
    numbers: &'a [f32],
    kinds: &'a [u8],
    frames: &'a [usize],
    weights: &'a [f32],
}

// Each call; a push's numbers by their bits.
fn print_calls(writer: &mut impl Write, lists: &Lists<'_>) -> io::Result<()> {
    let mut numbers = lists.numbers;
    for ((kind, frame), weight) in lists.kinds.iter().zip(lists.frames).zip(lists.weights) {
        write!(writer, " {kind}")?;
        match kind {
            0 => {
                let (pushed, behind) = numbers.split_at(lists.dim.min(numbers.len()));
                print_list(writer, pushed)?;
                numbers = behind;
            }
            1 => {}
            2 => {
                write!(writer, " {frame}")?;
                print(writer, *weight)?;
            }
            _ => write!(writer, " {frame}")?,
        }
    }
    Ok(())
}

/// `h SEED DIM COUNT FRAMES CALLS`
fn list_line(writer: &mut impl Write, mut words: Words<'_>) -> io::Result<()> {
    let seed = words.number(10);
    let dim = words.number(10);
    let count = words.number(10);
    let lent_numbers = words.number(10);
    let lent_calls = words.number(10);
    let mut numbers = [0.0; 16384];
    let mut kinds = [0; 10000];
    let mut frames = [0; 10000];
    let mut weights = [0.0; 10000];
    let filled = try_load::fill(
        seed,
        dim,
        count,
        lend(&mut numbers, lent_numbers),
        lend(&mut kinds, lent_calls),
        lend(&mut frames, lent_calls),
        lend(&mut weights, lent_calls),
    );
    if let Err(refusal) = filled {
        let number = refusal.number();
        return writeln!(writer, "{number}");
    }
    write!(writer, "0")?;
    let lists = Lists {
        dim,
        numbers: &numbers,
        kinds: front(&kinds, count),
        frames: &frames,
        weights: &weights,
    };
    print_calls(writer, &lists)?;
    writeln!(writer)
}

/// `i N HEX`. An input that is longer than the room is too long in the room too.
fn input_line(writer: &mut impl Write, mut words: Words<'_>) -> io::Result<()> {
    answer(writer, words.bytes(&mut [0; 128]), ';')
}

fn play(writer: &mut impl Write, line: &[u8]) -> io::Result<()> {
    let mut words = Words { rest: line };
    match words.letter() {
        b'h' => list_line(writer, words),
        _ => input_line(writer, words),
    }
}

fn main(rt: HostRuntime) -> io::Result<()> {
    let mut writer = io::writer(&rt);
    match rt.arg(1, &mut [0; 1]) {
        Err(FillError::NotPresent) => {
            // a byte more than an input may have shows that it is too long
            let mut room = [0; 101];
            let n = script::read_full(&mut rt.reader(), &mut room)?;
            answer(&mut writer, front(&room, n), '\n')
        }
        _ => {
            let mut room = [0; 262144];
            let script = Script::read(&mut rt.reader(), &mut room)?;
            for line in script.lines() {
                play(&mut writer, line)?;
            }
            script.end(&mut writer)
        }
    }
}
