//! Writes the models of standard input, and prints what each call gives: a refusal's number, or 0
//! and the three lengths; then the output, all ee at first, up to the last byte that is not ee.
//!
//! A line is a set of parameters, its words parted by one space each: the width of its floats, 4 or
//! 8 bytes; the options; the CMVN text; the five sizes; weights, means times inverse variances,
//! inverse variances, `<M>`, `<SigmaInv>`, the offset, the LDA; the output's length. Numbers are
//! decimal, bytes and the bits of floats hexadecimal; a list is its length and its items.
#![tactic(auto)]

use definition::{IvectorOptions, Refusal};
use floats::KeepAs;
use script::{Item, Script, Words, lend};
use std::io::{self, Write};
use writer::model_bytes::{FileLengths, LentParams, ModelSizes};
use writer::model_writer;

/// What a call answered, and the output up to the last byte that is not ee.
fn print_written(
    writer: &mut impl Write,
    written: Result<FileLengths, Refusal>,
    out: &[u8],
) -> io::Result<()> {
    match written {
        Ok(
            FileLengths {
                gmm,
                extractor,
                lda,
            },
        ) => write!(writer, "0 {gmm} {extractor} {lda}")?,
        Err(e) => {
            let refusal = e.number();
            write!(writer, "{refusal}")?;
        }
    }
    if let Some(last) = out.iter().rposition(|byte| *byte != 0xee) {
        write!(writer, " ")?;
        for byte in out.iter().take(last + 1) {
            write!(writer, "{byte:02x}")?;
        }
    }
    writeln!(writer)
}

/// The rooms for the lists of a line.
#[derive(Drop)]
struct Rooms<'a, W> {
    weights: &'a mut [W],
    means_invvars: &'a mut [W],
    inv_vars: &'a mut [W],
    m: &'a mut [W],
    sigma_inv: &'a mut [W],
    lda: &'a mut [W],
}

/// One line at one width, after its first word. A list that is longer than its room is cut.
fn play<W: Item + KeepAs<f32>>(
    writer: &mut impl Write,
    words: &mut Words<'_>,
    rooms: Rooms<'_, W>,
) -> io::Result<()> {
    let opts = IvectorOptions::read(words);
    let mut cmvn = [0; 128];
    let cmvn = words.list(&mut cmvn);
    let sizes = ModelSizes {
        num_gauss: words.number(10),
        ext_gauss: words.number(10),
        feat_dim: words.number(10),
        ivector_dim: words.number(10),
        lda_cols: words.number(10),
    };
    let Rooms {
        weights,
        means_invvars,
        inv_vars,
        m,
        sigma_inv,
        lda,
    } = rooms;
    let params = LentParams {
        sizes,
        weights: words.list(weights),
        means_invvars: words.list(means_invvars),
        inv_vars: words.list(inv_vars),
        m: words.list(m),
        sigma_inv: words.list(sigma_inv),
        prior_offset: <W as Item>::read(words),
        lda: words.list(lda),
    };
    let mut out = [0xee; 1024];
    let room = words.number(10);
    let written = model_writer::write(opts, cmvn, &params, lend(&mut out, room));
    print_written(writer, written, &out)
}

fn play_singles(writer: &mut impl Write, words: &mut Words<'_>) -> io::Result<()> {
    let rooms = Rooms {
        weights: &mut [0.0f32; 160],
        means_invvars: &mut [0.0; 160],
        inv_vars: &mut [0.0; 160],
        m: &mut [0.0; 160],
        sigma_inv: &mut [0.0; 160],
        lda: &mut [0.0; 160],
    };
    play(writer, words, rooms)
}

fn play_doubles(writer: &mut impl Write, words: &mut Words<'_>) -> io::Result<()> {
    let rooms = Rooms {
        weights: &mut [0.0f64; 160],
        means_invvars: &mut [0.0; 160],
        inv_vars: &mut [0.0; 160],
        m: &mut [0.0; 160],
        sigma_inv: &mut [0.0; 160],
        lda: &mut [0.0; 160],
    };
    play(writer, words, rooms)
}

fn main(rt: HostRuntime) -> io::Result<()> {
    let mut room = [0; 131072];
    let mut writer = io::writer(&rt);
    let script = Script::read(&mut rt.reader(), &mut room)?;
    for line in script.lines() {
        let mut words = Words { rest: line };
        match words.letter() {
            b'4' => play_singles(&mut writer, &mut words)?,
            b'8' => play_doubles(&mut writer, &mut words)?,
            _ => writeln!(writer, "no width")?,
        }
    }
    script.end(&mut writer)
}
