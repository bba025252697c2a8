//! What stands between two lines of a script, and what a line does. The letter of a line says
//! which.
use super::calls::{self, RingCall};
use super::load::{FILE_BYTES, dimensions, file, file_bytes};
use super::rooms::{Lengths, Rooms, Tables};
use board::register_bytes::Command;
use board::registers;
use definition::{IvectorOptions, IvectorStream, Refusal, StreamAnswer};
use script::{
    Files, Held, Item, NO_FILES, Words, front, lend, not_here, print, print_answer, print_list,
};
use std::io::{self, Write};

/// A model or a stream that is open, and the lengths of its rooms.
#[derive(Clone, Copy)]
pub(crate) struct Open {
    pub(crate) held: Held,
    pub(crate) lengths: Lengths,
}

/// What stands between two lines.
#[derive(Drop)]
pub(crate) struct Session<'a> {
    /// The options so far.
    opts: IvectorOptions,
    /// The files so far.
    files: Files<'a>,
    /// What is open.
    open: Open,
    /// What the next call is told is open.
    pub(crate) told: Open,
    /// Whether a script forged it.
    pub(crate) forged: bool,
    /// Whether a script forged the waiting frames.
    pub(crate) waiting_forged: bool,
    /// The files' bytes.
    bytes: [u8; FILE_BYTES],
    tables: Tables,
    pub(crate) rooms: Rooms,
}

const CLOSED: Open = Open {
    held: Held::Nothing,
    lengths: Lengths::NONE,
};

fn does_not_fit(writer: &mut impl Write) -> io::Result<()> {
    writeln!(writer, "does not fit")
}

impl<'a> Session<'a> {
    pub(crate) fn new() -> Session<'a> {
        Session {
            opts: IvectorOptions::default(),
            files: NO_FILES,
            open: CLOSED,
            told: CLOSED,
            forged: false,
            waiting_forged: false,
            bytes: [0; FILE_BYTES],
            tables: Tables::new(),
            rooms: Rooms::new(),
        }
    }

    /// Begins another session, over the same rooms.
    fn restart(&mut self) {
        self.opts = IvectorOptions::default();
        self.files = NO_FILES;
        self.hold(CLOSED);
    }

    /// Opens `open`, with nothing forged. The rooms stay.
    fn hold(&mut self, open: Open) {
        self.open = open;
        self.told = open;
        self.forged = false;
        self.waiting_forged = false;
    }

    /// Opens something else, with the lengths as they were.
    fn hold_in_place(&mut self, held: Held) {
        let lengths = self.open.lengths;
        self.hold(Open { held, lengths });
    }

    /// Closes the stream; its model stays open.
    fn close_stream(&mut self) {
        self.hold_in_place(match self.open.held.model() {
            Some(info) => Held::Model(info),
            None => Held::Nothing,
        });
    }

    /// After a call the stream is the one it left; after a forged one, what it was.
    fn after(&mut self, stream: IvectorStream) {
        self.hold_in_place(if self.forged {
            self.open.held
        } else {
            Held::Stream(stream)
        });
    }

    /// One line, which is the text from its first byte on.
    pub(crate) fn play(&mut self, writer: &mut impl Write, line: &'a [u8]) -> io::Result<()> {
        let mut words = Words { rest: line };
        let letter = words.letter();
        match letter {
            b'o' => self.opts = IvectorOptions::read(&mut words),
            b'g' => self.files.gmm = words.rest,
            b'e' => self.files.extractor = words.rest,
            b'l' => self.files.lda = words.rest,
            b'c' => self.files.cmvn = words.rest,
            b'm' => self.load(writer, &mut words)?,
            b'z' => self.restart(),
            b'k' => self.print_tables(writer)?,
            b'x' => self.forge(&mut words),
            b's' => self.open_stream(writer, &mut words)?,
            b'p' | b'w' | b'f' | b'd' | b'n' | b'v' | b'r' => {
                self.call(writer, letter, &mut words)?
            }
            _ => not_here(writer)?,
        }
        Ok(())
    }

    /// `m d0 .. d7`
    fn load(&mut self, writer: &mut impl Write, words: &mut Words<'_>) -> io::Result<()> {
        self.rooms.clear();
        if FILE_BYTES < file_bytes(self.files) {
            does_not_fit(writer)?;
            self.hold_in_place(Held::Nothing);
            return Ok(());
        }
        let (gmm, left) = file(self.files.gmm, &mut self.bytes);
        let (extractor, left) = file(self.files.extractor, left);
        let (lda, left) = file(self.files.lda, left);
        let (cmvn, _) = file(self.files.cmvn, left);
        let files = Files {
            gmm,
            extractor,
            lda,
            cmvn,
        };
        let mut lengths = Lengths::needs(self.opts, dimensions(files));
        lengths.read(words, 0, 8);
        let fits = lengths.fit(0, 8);
        let loaded = self.tables.load(&lengths, self.opts, files);
        match loaded {
            Ok(info) if fits => {
                writeln!(writer, "0")?;
                self.hold(Open {
                    held: Held::Model(info),
                    lengths,
                });
            }
            Err(refusal) if fits || refusal != Refusal::ShortRoom => {
                let number = refusal.number();
                writeln!(writer, "{number}")?;
                self.hold_in_place(Held::Nothing);
            }
            _ => {
                does_not_fit(writer)?;
                self.hold_in_place(Held::Nothing);
            }
        }
        Ok(())
    }

    /// `k`: the tables, by their bits.
    fn print_tables(&self, writer: &mut impl Write) -> io::Result<()> {
        let Some(info) = self.open.held.model() else {
            return not_here(writer);
        };
        let d = info.dims;
        let t = self.tables.lent(&Lengths::needs(info.opts, d));
        let gmm_gauss = d.num_gauss;
        let ext_gauss = d.ext_gauss;
        let feat_dim = d.feat_dim;
        let ivector_dim = d.ivector_dim;
        let base_dim = d.base_dim;
        let lda_cols = d.lda_cols;
        write!(
            writer,
            "{gmm_gauss} {ext_gauss} {feat_dim} {ivector_dim} {base_dim} {lda_cols}"
        )?;
        print(writer, info.prior_offset)?;
        print_list(writer, t.gconsts)?;
        print_list(writer, t.means_invvars_t)?;
        print_list(writer, t.inv_vars_t)?;
        print_list(writer, t.sigma_inv_m)?;
        print_list(writer, t.u)?;
        print_list(writer, t.lda_t)?;
        print_list(writer, t.lda_offset)?;
        print_list(writer, t.global_mean_stats)?;
        writeln!(writer)
    }

    /// `s FL RL WF WW c0 .. c4`
    fn open_stream(&mut self, writer: &mut impl Write, words: &mut Words<'_>) -> io::Result<()> {
        let Some(info) = self.told.held.model() else {
            return not_here(writer);
        };
        let lengths = self.stream_lengths(words);
        if !lengths.fit(8, 17) {
            does_not_fit(writer)?;
            self.close_stream();
            return Ok(());
        }
        let mut record = IvectorStream::default();
        let started = calls::start(
            &mut self.rooms.stream(&lengths, &mut record),
            info,
            self.tables.lent(&lengths),
        );
        match started {
            Ok(answer) => {
                print_answer(writer, answer)?;
                writeln!(writer)?;
                self.hold(Open {
                    held: Held::Stream(record),
                    lengths,
                });
            }
            Err(refusal) => {
                let number = refusal.number();
                writeln!(writer, "{number}")?;
                self.close_stream();
            }
        }
        Ok(())
    }

    /// The lengths that a fresh stream is lent. Those of the tables are what the script wants by
    /// now; the others are what the model needs, moved as the line says.
    fn stream_lengths(&self, words: &mut Words<'_>) -> Lengths {
        let tables = self.told.lengths;
        let Some(info) = self.open.held.model() else {
            return tables;
        };
        let mut lengths = Lengths::needs(info.opts, info.dims);
        lengths.0[..8].copy_from_slice(&tables.0[..8]);
        lengths.read(words, 8, 17);
        lengths
    }

    /// A call on the stream.
    fn call(
        &mut self,
        writer: &mut impl Write,
        letter: u8,
        words: &mut Words<'_>,
    ) -> io::Result<()> {
        let Held::Stream(mut record) = self.told.held else {
            return not_here(writer);
        };
        if self.waiting_forged {
            self.rooms.swap_waiting();
        }
        match letter {
            b'r' => self.step(writer, &mut record, words)?,
            b'v' => self.fetch(writer, &mut record, words)?,
            _ => {
                let answer = self.ring_call(letter, &mut record, words);
                print_answer(writer, answer)?;
                writeln!(writer)?;
            }
        }
        if self.waiting_forged {
            self.rooms.swap_waiting();
        }
        self.after(record);
        Ok(())
    }

    /// `p n x1 .. xn`, `w nf f1 .. fnf nw w1 .. wnw`, `f`, `n V`, and `d F`. A list that is longer
    /// than its room here is longer than any frame or any change.
    fn ring_call(
        &mut self,
        letter: u8,
        record: &mut IvectorStream,
        words: &mut Words<'_>,
    ) -> StreamAnswer {
        let mut stream = self.rooms.stream(&self.told.lengths, record);
        match letter {
            b'p' => {
                let mut frame = [0.0f32; 128];
                RingCall::Push(words.list(&mut frame)).on(&mut stream)
            }
            b'w' => {
                let mut frames = [0usize; 1026];
                let mut weights = [0.0f32; 1026];
                let frames = words.list(&mut frames);
                let weights = words.list(&mut weights);
                RingCall::Change(frames, weights).on(&mut stream)
            }
            b'f' => RingCall::Finish.on(&mut stream),
            b'n' => RingCall::SetWindow(words.number(10)).on(&mut stream),
            _ => RingCall::Forget(words.number(10)).on(&mut stream),
        }
    }

    /// `v F n`. An output that is longer than 160 is longer than any vector.
    fn fetch(
        &mut self,
        writer: &mut impl Write,
        record: &mut IvectorStream,
        words: &mut Words<'_>,
    ) -> io::Result<()> {
        let z = self.told.lengths;
        let frame = words.number(10);
        let n = words.number(10);
        let mut out = [0u32; 160];
        let answer = calls::fetch(
            &mut self.rooms.stream(&z, record),
            frame,
            self.tables.lent(&z),
            lend(&mut out, n),
        );
        print_answer(writer, answer)?;
        if answer.refusal == 0 {
            let not_finite = answer.not_finite;
            let nans = answer.nan_likelihoods;
            write!(writer, " {not_finite} {nans}")?;
            print_list(writer, front(&out, n))?;
        }
        writeln!(writer)
    }

    /// `r M n x1 .. xn N HEX`. A block that is longer than its room here is longer than any block.
    /// The answer has the block, and the vector of a fetch that was taken.
    fn step(
        &mut self,
        writer: &mut impl Write,
        record: &mut IvectorStream,
        words: &mut Words<'_>,
    ) -> io::Result<()> {
        let z = self.told.lengths;
        let m = words.number(10);
        let mut frame = [0.0f32; 128];
        let frame = words.list(&mut frame);
        let mut block = [0u8; 64];
        let n = words.bytes(&mut block).len();
        let command = Command::from(block[0]);
        let mut out = [0u32; 160];
        let done = registers::step(
            &mut self.rooms.stream(&z, record),
            lend(&mut block, n),
            frame,
            self.tables.lent(&z),
            lend(&mut out, m),
        );
        if let Err(refusal) = done {
            let number = refusal.number();
            return writeln!(writer, "{number}");
        }
        write!(writer, "0 ")?;
        let block = front(&block, n);
        for byte in block {
            write!(writer, "{byte:02x}")?;
        }
        if matches!(command, Command::Fetch) && script::byte_at(block, 1) % 2 == 1 {
            print_list(writer, front(&out, m))?;
        }
        writeln!(writer)
    }
}
