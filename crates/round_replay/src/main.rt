//! Replays a script of rounds from standard input, and prints an answer line for each. README.md
//! says what a line may be, and which sizes fit in this program's rooms.
#![tactic(auto)]

mod calls;
mod rooms;
mod round;
mod session;

use script::Script;
use session::Session;
use std::io;

fn main(rt: HostRuntime) -> io::Result<()> {
    let mut room = [0u8; 262144];
    let mut writer = io::writer(&rt);
    let script = Script::read(&mut rt.reader(), &mut room)?;
    let mut session = Session::new();
    for line in script.lines() {
        session.play(&mut writer, line)?;
    }
    script.end(&mut writer)
}
