//! Runs single functions on the vectors of standard input, and prints what each gives. A line is a
//! function's letter and its arguments as hexadecimal numbers, parted by one space each: l ln, n
//! ln_f32, e exp, r narrow, f min_post_for, s select_posteriors, g linear_cgd, c cholesky_solve, t
//! a text number (its bytes), v nearest_voice, o the options of two settings texts.
//!
//! Numbers are printed by their bits. Each list and matrix stands in a room for the longest, and is
//! cut to the length that its line says.
#![tactic(auto)]

#[cfg(test)]
mod tests;

use algebra::linear;
use algebra::packed_matrix::Symmetric;
use definition::IvectorOptions;
use gmm::leading::Chosen;
use gmm::{diag_gmm, posteriors};
use kaldi::{kaldi_text, settings};
use rounds::nearest_voice;
use script::{Item, Pattern, Script, Words, front, lend, print, print_list};
use std::io::{self, Write};

/// The answer to a line whose lists or matrices have no room here.
fn too_large(writer: &mut impl Write) -> io::Result<()> {
    writeln!(writer, "too large for this program")
}

/// A line of one number.
fn print_line<T: Pattern>(writer: &mut impl Write, x: T) -> io::Result<()> {
    print_digits(writer, x)?;
    writeln!(writer)
}

/// The digits of a number, with no space in front.
fn print_digits<T: Pattern>(writer: &mut impl Write, x: T) -> io::Result<()> {
    let digits = T::DIGITS;
    let bits = x.pattern();
    write!(writer, "{bits:0digits$x}")
}

/// Numbers parted by spaces.
fn print_row(writer: &mut impl Write, row: &[f64]) -> io::Result<()> {
    if let Some((first, others)) = row.split_first() {
        print_digits(writer, *first)?;
        print_list(writer, others)?;
    }
    writeln!(writer)
}

/// A list behind its length, where the room has places for it.
fn list<'r, T: Item>(words: &mut Words<'_>, room: &'r mut [T]) -> Option<&'r [T]> {
    let n = words.number(16);
    if room.len() < n {
        return None;
    }
    words.fill(n, room);
    Some(&room[..n])
}

/// `f min_post weight`
fn floor(writer: &mut impl Write, words: &mut Words<'_>) -> io::Result<()> {
    let min_post = f32::read(words);
    let weight = f32::read(words);
    let opts = IvectorOptions {
        left_context: 0,
        right_context: 0,
        cmn_window: 600,
        global_frames: 200,
        num_gselect: 5,
        num_cg_iters: 15,
        min_post,
        posterior_scale: 0.1,
        max_count: 100.0,
        min_energy: 50.0,
    };
    print_line(writer, diag_gmm::min_post_for(opts, weight))
}

/// `s num_gselect floor n l1 .. ln`
fn select(writer: &mut impl Write, words: &mut Words<'_>) -> io::Result<()> {
    let most = words.number(16);
    let floor = f32::read(words);
    let mut loglikes = [0.0; 64];
    let Some(loglikes) = list(words, &mut loglikes) else {
        return too_large(writer);
    };
    let mut gauss = [0; 32];
    let mut posts = [0.0; 32];
    if gauss.len() < most {
        return too_large(writer);
    }
    let mut chosen = Chosen {
        gauss: &mut gauss,
        posts: &mut posts,
    };
    let selected = posteriors::select_posteriors(loglikes, most, floor, &mut chosen);
    let count = selected.count;
    let nans = selected.nans;
    write!(writer, "{count}")?;
    for (gauss, post) in gauss.iter().zip(&posts).take(count) {
        write!(writer, " {gauss}")?;
        print(writer, *post)?;
    }
    writeln!(writer, " {nans}")
}

/// `g n iters A b x`, A by its n (n + 1) / 2 packed numbers
fn cgd(writer: &mut impl Write, words: &mut Words<'_>) -> io::Result<()> {
    let n = words.number(16);
    let iters = words.number(16);
    if 16 < n {
        return too_large(writer);
    }
    let mut a = [0.0; 136];
    let mut b = [0.0; 16];
    let mut x = [0.0; 16];
    words.fill(n * (n + 1) / 2, &mut a);
    words.fill(n, &mut b);
    words.fill(n, &mut x);
    let a = Symmetric { cells: &a, n };
    linear::linear_cgd(a, &b, &mut x[..n], iters, &mut [0.0; 256]);
    print_row(writer, &x[..n])
}

/// `c n A b`, likewise
fn cholesky(writer: &mut impl Write, words: &mut Words<'_>) -> io::Result<()> {
    let n = words.number(16);
    if 16 < n {
        return too_large(writer);
    }
    let mut a = [0.0; 136];
    let mut b = [0.0; 16];
    words.fill(n * (n + 1) / 2, &mut a);
    words.fill(n, &mut b);
    let mut x = [0.0; 16];
    let mut l = [0.0; 256];
    let mut y = [0.0; 16];
    let a = Symmetric { cells: &a, n };
    if !linear::cholesky_solve(a, &b, &mut x[..n], &mut l[..n * n], &mut y[..n]) {
        return writeln!(writer, "0");
    }
    write!(writer, "1 ")?;
    print_row(writer, &x[..n])
}

/// Writes bytes at a place of a room, as far as it has places. It returns the place after them.
fn put(room: &mut [u8], at: usize, bytes: &[u8]) -> usize {
    let at = at.min(room.len());
    let n = bytes.len().min(room.len() - at);
    room[at..at + n].copy_from_slice(&bytes[..n]);
    at + n
}

/// `t n b1 .. bn`: the number as the first of two in each row of a matrix
fn text_number(writer: &mut impl Write, words: &mut Words<'_>) -> io::Result<()> {
    let mut bytes = [0; 1024];
    let n = words.number(16).min(bytes.len());
    words.fill(n, &mut bytes);
    let mut room = [0; 1024];
    let mut end = put(&mut room, 0, b"[");
    end = put(&mut room, end, &bytes[..n]);
    end = put(&mut room, end, b" 1\n");
    end = put(&mut room, end, &bytes[..n]);
    end = put(&mut room, end, b" 1]");
    let matrix = front(&room, end);
    match kaldi_text::check_cmvn(matrix) {
        Err(_) => writeln!(writer, "-"),
        Ok(c) => {
            let mut row = [0.0; 65];
            kaldi_text::fill_row(matrix, c.from, lend(&mut row, c.len));
            print_line(writer, row[0])
        }
    }
}

/// `v dim n v1 .. vn count m e1 .. em limit`: the enrolled vectors one after the other
fn voice(writer: &mut impl Write, words: &mut Words<'_>) -> io::Result<()> {
    let dim = words.number(16);
    let mut vector = [0; 256];
    let Some(vector) = list(words, &mut vector) else {
        return too_large(writer);
    };
    let count = words.number(16);
    let mut enrolled = [0; 2048];
    let Some(enrolled) = list(words, &mut enrolled) else {
        return too_large(writer);
    };
    let limit = f32::read(words);
    match nearest_voice::nearest_voice(dim, vector, count, enrolled, limit) {
        Ok(Some(voice)) => {
            let index = voice.index;
            write!(writer, "0 {index}")?;
            print(writer, voice.distance)?;
            writeln!(writer)
        }
        Ok(None) => writeln!(writer, "0 nobody"),
        Err(refusal) => {
            let number = refusal.number();
            writeln!(writer, "{number}")
        }
    }
}

/// `o n a1 .. an m b1 .. bm`: the bytes of splice.conf and of online_cmvn.conf
fn settings_line(writer: &mut impl Write, words: &mut Words<'_>) -> io::Result<()> {
    let mut splice = [0; 256];
    let Some(splice) = list(words, &mut splice) else {
        return too_large(writer);
    };
    let mut cmvn = [0; 256];
    let Some(cmvn) = list(words, &mut cmvn) else {
        return too_large(writer);
    };
    match settings::read_settings(splice, cmvn) {
        Ok(opts) => print_options(writer, opts),
        Err(e) => {
            let refusal = e.number();
            writeln!(writer, "{refusal}")
        }
    }
}

fn print_options(writer: &mut impl Write, opts: IvectorOptions) -> io::Result<()> {
    let IvectorOptions {
        left_context,
        right_context,
        cmn_window,
        global_frames,
        num_gselect,
        num_cg_iters,
        min_post,
        posterior_scale,
        max_count,
        min_energy,
    } = opts;
    write!(
        writer,
        "0 {left_context} {right_context} {cmn_window} {global_frames} {num_gselect} {num_cg_iters}"
    )?;
    print(writer, min_post)?;
    print(writer, posterior_scale)?;
    print(writer, max_count)?;
    print(writer, min_energy)?;
    writeln!(writer)
}

fn play(writer: &mut impl Write, line: &[u8]) -> io::Result<()> {
    let mut words = Words { rest: line };
    match words.letter() {
        b'f' => floor(writer, &mut words),
        b's' => select(writer, &mut words),
        b'g' => cgd(writer, &mut words),
        b'c' => cholesky(writer, &mut words),
        b't' => text_number(writer, &mut words),
        b'v' => voice(writer, &mut words),
        b'o' => settings_line(writer, &mut words),
        b'l' => print_line(writer, floats::ln(f64::read(&mut words))),
        b'n' => print_line(writer, floats::ln_f32(f32::read(&mut words))),
        b'e' => print_line(writer, floats::exp(f32::read(&mut words))),
        _ => print_line(writer, floats::narrow(f64::read(&mut words))),
    }
}

fn main(rt: HostRuntime) -> io::Result<()> {
    let mut room = [0; 262144];
    let mut writer = io::writer(&rt);
    let script = Script::read(&mut rt.reader(), &mut room)?;
    for line in script.lines() {
        play(&mut writer, line)?;
    }
    script.end(&mut writer)
}
