//! Replays a script of load and stream calls from standard input, and prints an answer line for
//! each. README.md says what a line may be, and which sizes fit in this program's rooms; for others
//! it prints `does not fit`.
#![tactic(auto)]

mod calls;
mod forge;
mod load;
mod rooms;
mod session;

use script::Script;
use session::Session;
use std::io::{self, Read, Write};

/// Plays the script that a reader gives, as far as the room for it has it.
fn play(reader: &mut impl Read, writer: &mut impl Write, room: &mut [u8]) -> io::Result<()> {
    let script = Script::read(reader, room)?;
    let mut session = Session::new();
    for line in script.lines() {
        // a line that begins with 0 ends the script
        if line.first() == Some(&0) {
            break;
        }
        session.play(writer, line)?;
    }
    script.end(writer)
}

/// The room as a slice.
fn in_room(
    reader: &mut impl Read,
    writer: &mut impl Write,
    room: &mut [u8; 1474560],
) -> io::Result<()> {
    play(reader, writer, room)
}

fn main(rt: HostRuntime) -> io::Result<()> {
    let mut room = [0u8; 1474560];
    in_room(&mut rt.reader(), &mut io::writer(&rt), &mut room)
}
