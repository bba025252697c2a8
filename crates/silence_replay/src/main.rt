//! Replays a script of silence calls from standard input, and prints an answer line for each. Of
//! the script's commands it knows t (make a table), b (traceback), a (weights), y (the next call's
//! record or rooms are forged) and z (end of a session).
#![tactic(auto)]

use definition::{DecoderFrame, InputFrame, Refusal, SilenceWeighting};
use rounds::silence_weighting::{self, LentPath, SilenceRooms};
use script::{Item, Script, Words, lend, not_here, print};
use std::io::{self, Read, Write};

/// One place more than the 1,000,000 decoder frames that a table takes.
const FRAMES: usize = 1000001;

/// The silence phones, and a table's rooms. A length that a room has no places for is cut to the
/// room; the answer then shows it.
#[derive(Drop)]
struct Rooms<'a> {
    phones: &'a mut [i32],
    known: &'a mut [bool],
    is_silence: &'a mut [bool],
    current_weight: &'a mut [f32],
}

impl Rooms<'_> {
    /// Notes a path, in the fronts of a table's rooms.
    fn note(
        &mut self,
        s: &mut SilenceWeighting,
        lent: usize,
        known_phones: usize,
        path: LentPath<'_>,
        decoded: DecoderFrame,
    ) -> Result<(), Refusal> {
        let phones = lend(self.phones, known_phones);
        let mut rooms = SilenceRooms {
            known: lend(self.known, lent),
            is_silence: lend(self.is_silence, lent),
            current_weight: lend(self.current_weight, lent),
        };
        silence_weighting::compute_current_traceback(s, phones, &mut rooms, path, decoded)
    }

    /// Gives the changes, from the fronts of a table's rooms.
    fn weigh(
        &mut self,
        s: &mut SilenceWeighting,
        lent: usize,
        ready: InputFrame,
        first: InputFrame,
        frames: &mut [usize],
        weights: &mut [f32],
    ) -> Result<usize, Refusal> {
        let mut rooms = SilenceRooms {
            known: lend(self.known, lent),
            is_silence: lend(self.is_silence, lent),
            current_weight: lend(self.current_weight, lent),
        };
        silence_weighting::get_delta_weights(s, &mut rooms, ready, first, frames, weights)
    }
}

/// What stands between two lines.
#[derive(Drop)]
struct Session<'a> {
    /// The table that is open.
    held: Option<SilenceWeighting>,
    /// What the next call is told in its place.
    told: Option<SilenceWeighting>,
    /// The length of the rooms that the next call is lent.
    lent: usize,
    /// Whether a script forged either.
    forged: bool,
    rooms: Rooms<'a>,
}

impl<'a> Session<'a> {
    fn new(rooms: Rooms<'a>) -> Session<'a> {
        Session {
            held: None,
            told: None,
            lent: 0,
            forged: false,
            rooms,
        }
    }

    /// This is open, and nothing is forged. The rooms stay.
    fn hold(&mut self, held: Option<SilenceWeighting>) {
        self.held = held;
        self.told = held;
        self.lent = held.map_or(0, |s| s.table);
        self.forged = false;
    }

    /// After a call the record is the one it left; after a forged one, what it was.
    fn after(&mut self, s: SilenceWeighting) {
        self.hold(if self.forged { self.held } else { Some(s) });
    }

    /// One line, which is the text from its first byte on.
    fn play(&mut self, writer: &mut impl Write, line: &[u8]) -> io::Result<()> {
        let mut words = Words { rest: line };
        let letter = words.letter();
        match letter {
            b't' => return self.open(writer, &mut words),
            b'z' => {
                self.hold(None);
                return Ok(());
            }
            _ => {}
        }
        let Some(told) = self.told else {
            return not_here(writer);
        };
        match letter {
            b'y' => {
                self.forge(told, &mut words);
                Ok(())
            }
            b'b' => self.note(writer, told, &mut words),
            b'a' => self.weigh(writer, told, &mut words),
            _ => not_here(writer),
        }
    }

    /// `t T weight sub np p1 .. pnp`
    fn open(&mut self, writer: &mut impl Write, words: &mut Words<'_>) -> io::Result<()> {
        let table = words.number(10);
        let weight = f32::read(words);
        let subsampling = words.number(10);
        let phones = words.list(self.rooms.phones);
        let opened = match silence_weighting::new(phones, weight, subsampling, table) {
            Ok(s) => {
                writeln!(writer, "0")?;
                Some(s)
            }
            Err(refusal) => {
                let number = refusal.number();
                writeln!(writer, "{number}")?;
                None
            }
        };
        self.hold(opened);
        Ok(())
    }

    /// `y r D`, `y l N`, `y s N`, `y w HEX`, `y p N`
    fn forge(&mut self, told: SilenceWeighting, words: &mut Words<'_>) {
        let mut s = told;
        match words.letter() {
            b'r' => self.lent = script::moved(self.lent, words.signed()),
            b'l' => s.length = DecoderFrame(words.signed().size),
            b's' => s.subsampling = words.signed().size,
            b'w' => s.silence_weight = f32::read(words),
            _ => s.phones = words.signed().size,
        }
        self.told = Some(s);
        self.forged = true;
    }

    /// `b decoded np p.. ns s.. ne e..`
    fn note(
        &mut self,
        writer: &mut impl Write,
        told: SilenceWeighting,
        words: &mut Words<'_>,
    ) -> io::Result<()> {
        let decoded = DecoderFrame(words.number(10));
        let mut phones = [0i32; 64];
        let mut starts = [0usize; 64];
        let mut ends = [0usize; 64];
        let path = LentPath {
            phones: words.list(&mut phones),
            starts: words.list(&mut starts),
            ends: words.list(&mut ends),
        };
        let known_phones = self.held.map_or(0, |s| s.phones);
        let mut s = told;
        let lent = self.lent;
        let noted = self.rooms.note(&mut s, lent, known_phones, path, decoded);
        let number = definition::number_or_0(noted);
        writeln!(writer, "{number}")?;
        self.after(s);
        Ok(())
    }

    /// `a ready first lf lw`: the changes, or a refusal.
    fn weigh(
        &mut self,
        writer: &mut impl Write,
        told: SilenceWeighting,
        words: &mut Words<'_>,
    ) -> io::Result<()> {
        let ready = InputFrame(words.number(10));
        let first = InputFrame(words.number(10));
        let frames_lent = words.number(10);
        let weights_lent = words.number(10);
        let mut frames = [0usize; 20000];
        let mut weights = [0.0f32; 20000];
        let mut s = told;
        let lent = self.lent;
        let given = self.rooms.weigh(
            &mut s,
            lent,
            ready,
            first,
            lend(&mut frames, frames_lent),
            lend(&mut weights, weights_lent),
        );
        match given {
            Ok(changes) => {
                write!(writer, "0 {changes}")?;
                for (frame, weight) in frames.iter().zip(&weights).take(changes) {
                    write!(writer, " {frame}")?;
                    print(writer, *weight)?;
                }
                writeln!(writer)?;
            }
            Err(refusal) => {
                let number = refusal.number();
                writeln!(writer, "{number}")?;
            }
        }
        self.after(s);
        Ok(())
    }
}

/// Plays the script that a reader gives, as far as the room for it has it.
fn play(
    reader: &mut impl Read,
    writer: &mut impl Write,
    room: &mut [u8],
    rooms: Rooms<'_>,
) -> io::Result<()> {
    let script = Script::read(reader, room)?;
    let mut session = Session::new(rooms);
    for line in script.lines() {
        session.play(writer, line)?;
    }
    script.end(writer)
}

/// The rooms as slices.
fn in_rooms(
    reader: &mut impl Read,
    writer: &mut impl Write,
    room: &mut [u8],
    phones: &mut [i32],
    known: &mut [bool; FRAMES],
    is_silence: &mut [bool; FRAMES],
    current_weight: &mut [f32; FRAMES],
) -> io::Result<()> {
    let rooms = Rooms {
        phones,
        known,
        is_silence,
        current_weight,
    };
    play(reader, writer, room, rooms)
}

fn main(rt: HostRuntime) -> io::Result<()> {
    in_rooms(
        &mut rt.reader(),
        &mut io::writer(&rt),
        &mut [0; 262144],
        &mut [0; 128],
        &mut [false; FRAMES],
        &mut [false; FRAMES],
        &mut [0.0; FRAMES],
    )
}
