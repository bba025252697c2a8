//! What the programs that play load and stream calls share: the options that a line sets, a model's
//! files, what is open, how an answer is printed.

ghost use Rattle.std.specs.Prelude.{◌≡◌, OnOk};
ghost use Rattle.std.specs.Io.KnownBytes.{Appends};
ghost use Rattle.script.specs.Session.{options_at, behind_options, model_of, answer_text, no_such_line};

use super::{Item, Words};
use definition::{IvectorInfo, IvectorOptions, IvectorStream, StreamAnswer};
use std::io::{self, Write};

/// What is open: nothing, a model, or a stream over it.
#[derive(Clone, Copy)]
pub enum Held {
    Nothing,
    Model(IvectorInfo),
    Stream(IvectorStream),
}

impl Held {
    /// The model of what is open.
    pub fn model(self) -> Option<IvectorInfo>
        ensures { result ≡ model_of self }
    {
        match self {
            Held::Nothing => None,
            Held::Model(info) => Some(info),
            Held::Stream(s) => Some(s.info),
        }
    }
}

/// A model's four files: their bytes, or the text of a script from each one's length on.
#[derive(Clone, Copy)]
pub struct Files<'a> {
    pub gmm: &'a [u8],
    pub extractor: &'a [u8],
    pub lda: &'a [u8],
    pub cmvn: &'a [u8],
}

/// Files that are not given yet.
pub const NO_FILES: Files<'static> = Files {
    gmm: b"",
    extractor: b"",
    lda: b"",
    cmvn: b"",
};

/// The options of a line: `L R W GF GS CG minpost scale maxcount energy`.
impl Item for IvectorOptions {
    ghost item = { options_at };

    ghost behind = { behind_options };

    fn read(words: &mut Words<'_>) -> IvectorOptions {
        IvectorOptions {
            left_context: words.number(10),
            right_context: words.number(10),
            cmn_window: words.number(10),
            global_frames: words.number(10),
            num_gselect: words.number(10),
            num_cg_iters: words.number(10),
            min_post: f32::read(words),
            posterior_scale: f32::read(words),
            max_count: f64::read(words),
            min_energy: f32::read(words),
        }
    }
}

/// The number of an answer, and what is held. 10 stands alone.
pub fn print_answer<W: Write>(writer: &mut W, answer: StreamAnswer) -> io::Result<()>
    ensures { OnOk result (Appends (W.contents writer.old) (W.contents writer.new)
        (answer_text answer)) }
{
    let refusal = answer.refusal;
    let frames = answer.frames_held;
    let rows = answer.rows_held;
    if refusal == 10 {
        write!(writer, "{refusal}")
    } else {
        write!(writer, "{refusal} {frames} {rows}")
    }
}

/// The answer to a line that has no place where it stands.
pub fn not_here<W: Write>(writer: &mut W) -> io::Result<()>
    ensures { OnOk result (Appends (W.contents writer.old) (W.contents writer.new) no_such_line) }
{
    writer.write_all(b"no such line here\n")
}
