//! What the lines of a script ask for, up to the line that ends a session; then the one call that
//! plays it.
use super::calls::Calls;
use super::rooms::{Lengths, Rooms, Tables};
use definition::{IvectorOptions, IvectorStream, StreamAnswer};
use model::memory;
use script::{Files, Item, NO_FILES, Words, not_here, print_answer};
use session::NotPlayed;
use std::alloc::{AllocError, Global};
use std::io::{self, Write};
use stream::Stream;

/// What is asked for: nothing yet, a load with the lengths of its tables, or a stream over it with
/// the lengths of its rooms.
#[derive(Clone, Copy)]
enum Asked<'a> {
    Nothing,
    Load(Words<'a>),
    Stream(Words<'a>, Words<'a>),
}

/// What stands between two lines.
#[derive(Drop)]
pub(crate) struct Plan<'a> {
    alloc: Global,
    /// The options so far.
    opts: IvectorOptions,
    /// The files so far.
    files: Files<'a>,
    asked: Asked<'a>,
    /// Whether the load's answer is printed.
    load_told: bool,
    /// The calls so far.
    calls: Calls,
}

/// The bytes of a file, which the text has as `N HEX`: no more than the text has.
fn file(alloc: Global, text: &[u8]) -> Result<Vec<u8>, AllocError> {
    let mut words = Words { rest: text };
    let n = words.number(10).min(text.len());
    let mut bytes = vec![in alloc; 0u8; n]?;
    words.rest = text;
    words.bytes(&mut bytes);
    Ok(bytes)
}

impl<'a> Plan<'a> {
    pub(crate) fn new(alloc: Global) -> Plan<'a> {
        Plan {
            alloc,
            opts: IvectorOptions::default(),
            files: NO_FILES,
            asked: Asked::Nothing,
            load_told: false,
            calls: Calls::new(alloc),
        }
    }

    /// One line, which is the text from its first byte on. A line of a model, another stream over
    /// the same model, and the end of a list end a session.
    pub(crate) fn read(&mut self, writer: &mut impl Write, line: &'a [u8]) -> io::Result<()> {
        let mut words = Words { rest: line };
        let letter = words.letter();
        match letter {
            b'o' | b'g' | b'e' | b'l' | b'c' | b'm' => {
                self.play(writer)?;
                self.read_model(letter, words);
            }
            b's' => self.open_stream(writer, words)?,
            b'p' | b'f' | b'w' | b'd' | b'n' | b'v' if matches!(self.asked, Asked::Stream(_, _)) =>
                { self.calls.read(letter, &mut words)? }
            b'z' => {
                self.play(writer)?;
                self.opts = IvectorOptions::default();
                self.files = NO_FILES;
            }
            _ => not_here(writer)?,
        }
        Ok(())
    }

    fn read_model(&mut self, letter: u8, mut words: Words<'a>) {
        match letter {
            b'o' => self.opts = IvectorOptions::read(&mut words),
            b'g' => self.files.gmm = words.rest,
            b'e' => self.files.extractor = words.rest,
            b'l' => self.files.lda = words.rest,
            b'c' => self.files.cmvn = words.rest,
            _ => self.asked = Asked::Load(words),
        }
    }

    fn open_stream(&mut self, writer: &mut impl Write, words: Words<'a>) -> io::Result<()> {
        match self.asked {
            Asked::Nothing => not_here(writer)?,
            Asked::Load(tables) => self.asked = Asked::Stream(tables, words),
            Asked::Stream(tables, _) => {
                self.play(writer)?;
                self.asked = Asked::Stream(tables, words);
                self.load_told = true;
            }
        }
        Ok(())
    }

    /// Plays what is asked for, and prints its answers. Nothing is asked for then.
    pub(crate) fn play(&mut self, writer: &mut impl Write) -> io::Result<()> {
        match self.asked {
            Asked::Nothing => {}
            Asked::Load(tables) => self.session(writer, tables, None)?,
            Asked::Stream(tables, rooms) => self.session(writer, tables, Some(rooms))?,
        }
        self.asked = Asked::Nothing;
        self.load_told = false;
        self.calls.clear();
        Ok(())
    }

    fn session(
        &self,
        writer: &mut impl Write,
        mut tables: Words<'_>,
        rooms: Option<Words<'_>>,
    ) -> io::Result<()> {
        let gmm = file(self.alloc, self.files.gmm)?;
        let extractor = file(self.alloc, self.files.extractor)?;
        let lda = file(self.alloc, self.files.lda)?;
        let cmvn = file(self.alloc, self.files.cmvn)?;
        let found = memory::model_dimensions(self.opts, &gmm, &extractor, &lda, &cmvn);
        let mut lengths = Lengths::needed(self.opts, found.dims);
        lengths.move_tables(&mut tables);
        if let Some(mut words) = rooms {
            lengths.move_rooms(&mut words);
        }
        if !lengths.fit() {
            return writeln!(writer, "does not fit");
        }
        let mut t = Tables::new(self.alloc, &lengths)?;
        let mut z = Rooms::new(self.alloc, lengths.rooms)?;
        let mut stream = Stream {
            record: &mut IvectorStream::default(),
            frames: &mut z.frames,
            rows: &mut z.rows,
            waiting_frames: &mut z.waiting_frames,
            waiting_weights: &mut z.waiting_weights,
            cmvn_stats: &mut z.cmvn_stats,
            linear: &mut z.linear,
            quadratic: &mut z.quadratic,
            current: &mut z.current,
            scratch: &mut z.scratch,
        };
        let mut answers = vec![in self.alloc; 0usize; self
            .calls
            .len()
            .saturating_mul(5)
            .min(5242880)]?;
        let mut outs = vec![in self.alloc; 0u32; self.calls.outs().min(5242880)]?;
        let played = session::session(
            self.opts,
            &gmm,
            &extractor,
            &lda,
            &cmvn,
            &mut t.gconsts,
            &mut t.means_invvars_t,
            &mut t.inv_vars_t,
            &mut t.sigma_inv_m,
            &mut t.u,
            &mut t.lda_t,
            &mut t.lda_offset,
            &mut t.global_mean_stats,
            &mut t.scratch,
            &mut stream,
            self.calls.lent(),
            &mut answers,
            &mut outs,
        );
        self.print_load(writer, played)?;
        if rooms.is_none() {
            return Ok(());
        }
        match played {
            Ok(first) => {
                print_answer(writer, first)?;
                writeln!(writer)?;
                self.calls.print(writer, &answers, &outs)
            }
            Err(NotPlayed::Stream(refusal)) => {
                let number = refusal.number();
                writeln!(writer, "{number}")
            }
            Err(NotPlayed::Load(_)) => not_here(writer),
        }
    }

    fn print_load(
        &self,
        writer: &mut impl Write,
        played: Result<StreamAnswer, NotPlayed>,
    ) -> io::Result<()> {
        if self.load_told {
            return Ok(());
        }
        let number = match played {
            Err(NotPlayed::Load(refusal)) => refusal.number(),
            _ => 0,
        };
        writeln!(writer, "{number}")
    }
}
