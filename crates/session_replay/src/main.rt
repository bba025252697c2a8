//! Plays a script of sessions from standard input. The model, the stream's rooms and the calls of
//! each are gathered, and played by one call. An answer line is printed for each line that has one.
//! README.md says what a line may be.
#![tactic(auto)]

mod calls;
mod plan;
mod rooms;

use plan::Plan;
use script::Script;
use std::io;

fn main(rt: HostRuntime) -> io::Result<()> {
    let mut room = vec![in rt.alloc(); 0u8; 1048576]?;
    let mut writer = io::writer(&rt);
    let script = Script::read(&mut rt.reader(), &mut room)?;
    let mut plan = Plan::new(rt.alloc());
    for line in script.lines() {
        plan.read(&mut writer, line)?;
    }
    plan.play(&mut writer)?;
    script.end(&mut writer)
}
