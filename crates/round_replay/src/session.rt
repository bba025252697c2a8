//! What stands between two lines of a script, and what a line does.
use super::calls::{self, estimate_lengths};
use super::rooms::{Rooms, TableRooms, Tables};
use definition::{
    DecoderFrame, IvectorOptions, IvectorStream, RingLengths, SilenceWeighting, StreamAnswer,
};
use rounds::silence_weighting;
use script::{
    Files, Held, Item, NO_FILES, Words, front, not_here, print, print_answer, print_list,
};
use std::io::{self, Write};

/// What stands between two lines.
#[derive(Drop)]
pub(crate) struct Session<'a> {
    /// The options so far.
    opts: IvectorOptions,
    /// The files so far.
    files: Files<'a>,
    /// The model or the stream that is open.
    held: Held,
    /// The silence table that is open.
    pub(crate) table: Option<SilenceWeighting>,
    /// What the next round is told in place of `held`.
    pub(crate) told: Held,
    /// What the next round is told in place of `table`.
    pub(crate) told_table: Option<SilenceWeighting>,
    /// Whether a script forged `told`.
    forged: bool,
    /// Whether a script forged `told_table`.
    table_forged: bool,
    pub(crate) tables: Tables,
    pub(crate) rooms: Rooms,
    pub(crate) silence: TableRooms,
}

/// Prints how many changes there are, then each frame with its weight.
pub(crate) fn print_changes(
    writer: &mut impl Write,
    n: usize,
    frames: &[usize],
    weights: &[f32],
) -> io::Result<()> {
    write!(writer, " {n}")?;
    for (frame, weight) in frames.iter().zip(weights).take(n) {
        write!(writer, " {frame}")?;
        print(writer, *weight)?;
    }
    Ok(())
}

fn read_rings(words: &mut Words<'_>) -> RingLengths {
    RingLengths {
        frames: words.number(10),
        rows: words.number(10),
        waiting_frames: words.number(10),
        waiting_weights: words.number(10),
    }
}

fn forge_stream(s: &mut IvectorStream, field: &[u8], v: usize) {
    match field {
        b"accepted" => s.accepted = v,
        b"next" => s.num_frames_stats = v,
        b"mark" => s.mark = v,
        b"left" => s.info.opts.left_context = v,
        b"ivec" => s.info.dims.ivector_dim = v,
        _ => {}
    }
}

impl<'a> Session<'a> {
    pub(crate) fn new() -> Session<'a> {
        Session {
            opts: IvectorOptions::default(),
            files: NO_FILES,
            held: Held::Nothing,
            table: None,
            told: Held::Nothing,
            told_table: None,
            forged: false,
            table_forged: false,
            tables: Tables::new(),
            rooms: Rooms::new(),
            silence: TableRooms::new(),
        }
    }

    /// Begins another session, over the same rooms.
    fn restart(&mut self) {
        self.opts = IvectorOptions::default();
        self.files = NO_FILES;
        self.hold(Held::Nothing, None);
    }

    /// Opens these, with nothing forged.
    fn hold(&mut self, held: Held, table: Option<SilenceWeighting>) {
        self.held = held;
        self.table = table;
        self.told = held;
        self.told_table = table;
        self.forged = false;
        self.table_forged = false;
    }

    /// After a round the records are those it left; a forged one is what it was.
    pub(crate) fn after_round(&mut self, stream: IvectorStream, silence: SilenceWeighting) {
        let held = if self.forged {
            self.held
        } else {
            Held::Stream(stream)
        };
        let table = if self.table_forged {
            self.table
        } else {
            Some(silence)
        };
        self.hold(held, table);
    }

    /// One line, which is the text from its first byte on.
    pub(crate) fn play(&mut self, writer: &mut impl Write, line: &'a [u8]) -> io::Result<()> {
        let mut words = Words { rest: line };
        match words.letter() {
            b'o' => self.opts = IvectorOptions::read(&mut words),
            b'g' => self.files.gmm = words.rest,
            b'e' => self.files.extractor = words.rest,
            b'l' => self.files.lda = words.rest,
            b'c' => self.files.cmvn = words.rest,
            b'm' => self.load(writer)?,
            b's' => self.open_stream(writer, &mut words)?,
            b't' => self.open_table(writer, &mut words)?,
            b'u' => self.round(writer, &mut words)?,
            b'f' => self.finish(writer)?,
            b'd' => self.forget(writer, &mut words)?,
            b'q' if words.letter() == b's' => self.print_stream(writer)?,
            b'q' => self.print_table(writer)?,
            b'x' => self.forge(&mut words),
            b'y' => self.forge_table(&mut words),
            b'z' => self.restart(),
            _ => not_here(writer)?,
        }
        Ok(())
    }

    /// `m ..`: what the line says of the tables' lengths is not read.
    fn load(&mut self, writer: &mut impl Write) -> io::Result<()> {
        let held = match self.tables.load(self.opts, self.files) {
            Ok(info) => {
                writeln!(writer, "0")?;
                Held::Model(info)
            }
            Err(refusal) => {
                let number = refusal.number();
                writeln!(writer, "{number}")?;
                Held::Nothing
            }
        };
        self.hold(held, self.table);
        Ok(())
    }

    /// `s FL RL WF WW ..`, over a model that has no stream yet. Lengths behind the rings' are not
    /// read.
    fn open_stream(&mut self, writer: &mut impl Write, words: &mut Words<'_>) -> io::Result<()> {
        let Held::Model(info) = self.held else {
            return not_here(writer);
        };
        let rings = read_rings(words);
        let mut record = IvectorStream::default();
        let started = calls::start(
            &mut self.rooms.stream(rings, &mut record),
            info,
            self.tables.lent(),
        );
        match started {
            Ok(answer) => self.called(writer, answer, record),
            Err(refusal) => {
                let number = refusal.number();
                writeln!(writer, "{number}")
            }
        }
    }

    /// `t T weight sub np p1 .. pnp`
    fn open_table(&mut self, writer: &mut impl Write, words: &mut Words<'_>) -> io::Result<()> {
        let table = words.number(10);
        let weight = f32::read(words);
        let subsampling = words.number(10);
        let phones = words.list(&mut self.silence.phones);
        let opened = match silence_weighting::new(phones, weight, subsampling, table) {
            Ok(t) => {
                writeln!(writer, "0")?;
                Some(t)
            }
            Err(refusal) => {
                let number = refusal.number();
                writeln!(writer, "{number}")?;
                None
            }
        };
        self.hold(self.held, opened);
        Ok(())
    }

    fn called(
        &mut self,
        writer: &mut impl Write,
        answer: StreamAnswer,
        record: IvectorStream,
    ) -> io::Result<()> {
        print_answer(writer, answer)?;
        writeln!(writer)?;
        self.hold(Held::Stream(record), self.table);
        Ok(())
    }

    /// `f`
    fn finish(&mut self, writer: &mut impl Write) -> io::Result<()> {
        let Held::Stream(mut record) = self.held else {
            return not_here(writer);
        };
        let z = record.lengths.rings;
        let answer = calls::finish(&mut self.rooms.stream(z, &mut record));
        self.called(writer, answer, record)
    }

    /// `d F`
    fn forget(&mut self, writer: &mut impl Write, words: &mut Words<'_>) -> io::Result<()> {
        let Held::Stream(mut record) = self.held else {
            return not_here(writer);
        };
        let z = record.lengths.rings;
        let frame = words.number(10);
        let answer = calls::forget(&mut self.rooms.stream(z, &mut record), frame);
        self.called(writer, answer, record)
    }

    /// `q s`
    fn print_stream(&self, writer: &mut impl Write) -> io::Result<()> {
        let Held::Stream(s) = self.held else {
            return not_here(writer);
        };
        let accepted = s.accepted;
        let next = s.num_frames_stats;
        let mark = s.mark;
        let past = s.past_highest;
        let taken = u8::from(s.delta_weights_provided);
        let finished = u8::from(s.input_finished);
        let floor = s.floor;
        let window = s.window;
        let longest = s.longest;
        write!(
            writer,
            "{accepted} {next} {mark} {past} {taken} {finished} {floor} {window} {longest}"
        )?;
        let rooms = &self.rooms;
        print_changes(
            writer,
            s.waiting,
            &rooms.waiting_frames,
            &rooms.waiting_weights,
        )?;
        let lengths = estimate_lengths(s.info);
        print_list(writer, front(&rooms.cmvn_stats, lengths.cmvn_stats))?;
        print_list(writer, front(&rooms.linear, lengths.linear))?;
        print_list(writer, front(&rooms.quadratic, lengths.quadratic))?;
        print(writer, s.num_frames)?;
        print_list(writer, front(&rooms.current, lengths.current))?;
        writeln!(writer)
    }

    /// `q t`: of each frame whether it is known, whether it is silence, and its weight.
    fn print_table(&self, writer: &mut impl Write) -> io::Result<()> {
        let Some(table) = self.table else {
            return not_here(writer);
        };
        let n = table.length.0;
        write!(writer, "{n}")?;
        let rooms = &self.silence;
        for ((known, is_silence), weight) in rooms
            .known
            .iter()
            .zip(rooms.is_silence.iter())
            .zip(rooms.current_weight.iter())
            .take(n)
        {
            let known_digit = u8::from(*known);
            let silence_digit = u8::from(*known && *is_silence);
            write!(writer, " {known_digit}{silence_digit}")?;
            print(writer, *weight)?;
        }
        writeln!(writer)
    }

    /// `x n FIELD V`
    fn forge(&mut self, words: &mut Words<'_>) {
        words.letter();
        let field = words.word();
        let v = words.number(10);
        if let Held::Stream(s) = &mut self.told {
            forge_stream(s, field, v);
            self.forged = true;
        }
    }

    /// `y l N`, `y s N`, `y w HEX`
    fn forge_table(&mut self, words: &mut Words<'_>) {
        if let Some(table) = &mut self.told_table {
            match words.letter() {
                b'l' => table.length = DecoderFrame(words.number(10)),
                b's' => table.subsampling = words.number(10),
                _ => table.silence_weight = f32::read(words),
            }
            self.table_forged = true;
        }
    }
}
