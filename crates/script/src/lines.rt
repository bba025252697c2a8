//! A script and its lines.

ghost use Rattle.std.specs.Prelude.{◌≡◌, ◌<◌, ℕ, List, Bool, length, take, drop, nat_lt, not, IfOk, OnOk};
ghost use Rattle.std.specs.Io.KnownBytes.{Consumes, Appends};
ghost use Rattle.std.specs.Iterator.{at_most};
ghost use Rattle.script.specs.Scan.{whole_lines};
ghost use Rattle.script.specs.Lines.{GivesLine, closing};

use super::{next_line, read_full, whole_lines};
use std::io::{self, Read, Write};

/// The lines of a script that the room for it has whole, and whether there may be more.
#[derive(Clone, Copy)]
pub struct Script<'a> {
    pub text: &'a [u8],
    pub cut: bool,
}

/// The lines from a place on: each is the text from its first byte on.
#[derive(Drop)]
pub struct Lines<'a> {
    rest: &'a [u8],
}

impl<'a> Script<'a> {
    /// Reads a script into the room for it.
    pub fn read<R: Read>(reader: &mut R, room: &'a mut [u8]) -> io::Result<Script<'a>>
        ensures { IfOk result (λ s. (bytes : List ℕ) × (n : ℕ) × (length bytes ≡ length room.old)
            × Consumes (R.remaining reader.old) (R.remaining reader.new) (take n bytes)
            × (s.text.now ≡ take (whole_lines bytes n) bytes)
            × (s.cut ≡ not (nat_lt n (length bytes)))) }
    {
        let n = read_full(reader, room)?;
        let cut = n == room.len();
        let whole = whole_lines(room, n);
        Ok(Script {
            text: &room[..whole],
            cut,
        })
    }

    /// Its lines, from the first on.
    pub fn lines(&self) -> Lines<'a>
        ensures { result.rest.now ≡ self.now.text.now }
    {
        Lines { rest: self.text }
    }

    /// Ends the answers: a line more where the script is longer than the room for it.
    pub fn end<W: Write>(&self, writer: &mut W) -> io::Result<()>
        ensures { OnOk result (Appends (W.contents writer.old) (W.contents writer.new)
            (closing self.now.cut)) }
    {
        if !self.cut {
            return Ok(());
        }
        writer.write_all(b"the script is longer than this program's room: the rest is not read\n")
    }
}

impl<'a> Iterator for Lines<'a> {
    type Item = &'a [u8];

    ghost remaining = { λ lines. at_most (length lines.rest.now) };

    ghost next_gives = { λ before line after. GivesLine before.rest.now line after.rest.now };

    fn next(&mut self) -> Option<&'a [u8]> {
        if self.rest.is_empty() {
            return None;
        }
        let line = self.rest;
        self.rest = &line[next_line(line, 0)..];
        Some(line)
    }
}
