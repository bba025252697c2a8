//! One step of a board with registers, over a block of sixteen bytes beside a stream. The command
//! in byte 0 is done as its plain call; then the block is rewritten. specs/Board.antt says what
//! each byte is.

ghost use Rattle.std.specs.Prelude.{◌≡◌, length};
ghost use Rattle.definition.specs.Number.{refused_by};
ghost use Rattle.definition.specs.Lent.{tables_in};
ghost use Rattle.stream.specs.Stream.{record_of, rings_of, program_of, Rest, SameRooms};
ghost use Rattle.board.specs.Board.{byte, Board, board, block_refusal, board_step, FetchTaken};
ghost use Rattle.board.specs.Inner.RegisterBytes.{command_at, NoFetch, RingDone};

use crate::register_bytes::{self, Command};
use definition::{LentTables, Refusal, number_or_0};
use stream::{Fetched, Stream};

// A step whose command is not a fetch: push, finish, forget, or none.
fn ring_step(stream: &mut Stream<'_>, command: Command, block: &mut [u8], frame: &[f32])
    requires long { length block.old ≡ 16 }
    requires asked { command ≡ command_at (byte block.old 0) }
    requires no_fetch { NoFetch command }
    ensures done { RingDone (record_of stream.old) (rings_of stream.old) block.old frame.now
        (record_of stream.new) (rings_of stream.new) block.new }
    ensures rest { Rest stream.old stream.new }
{
    match command {
        Command::Push => {
            let pushed = stream.push(frame);
            register_bytes::told(stream, false, number_or_0(pushed), block);
        }
        Command::Finish => {
            let finished = stream.finish();
            register_bytes::told(stream, false, number_or_0(finished), block);
        }
        Command::Forget => {
            let at = register_bytes::frame_number(block);
            let forgotten = stream.forget(at);
            register_bytes::told(stream, false, number_or_0(forgotten), block);
        }
        _ => {
            let low = block[1] % 4;
            let number = block[12];
            register_bytes::settle(stream, low, number, block);
        }
    }
}

// The number of a fetch's refusal, 0 where it was taken.
fn fetch_number(fetched: Result<Fetched, Refusal>) -> usize
    ensures { result ≡ refused_by fetched }
{
    match fetched {
        Ok(_) => 0,
        Err(e) => e.number(),
    }
}

/// One step: the command of `block` on the stream, then the block rewritten. `frame` is what a push
/// takes, `out` where a fetch writes the bits of its vector. A command that is refused is told in
/// the block, and the step is taken.
///
/// # Errors
///
/// `ForeignRecord` for a block that has not sixteen bytes: nothing is written, and no command done.
pub fn step(
    stream: &mut Stream<'_>,
    block: &mut [u8],
    frame: &[f32],
    tables: LentTables<'_>,
    out: &mut [u32],
) -> Result<(), Refusal>
    ensures refusal { refused_by result ≡ block_refusal block.old }
    ensures board { (
        let a : Board = board (program_of stream.old) block.old out.old in
        board (program_of stream.new) block.new out.new
        ≡ board_step (tables_in tables.entry) (length stream.old.scratch.now) frame.now a) }
    ensures scratch { (
        let a : Board = board (program_of stream.old) block.old out.old in
        (FetchTaken (tables_in tables.entry) (length stream.old.scratch.now) a → ⊥)
        → stream.new.scratch.now ≡ stream.old.scratch.now) }
    ensures loans { SameRooms stream.old stream.new }
{
    if block.len() != 16 {
        return Err(Refusal::ForeignRecord);
    }
    match Command::from(block[0]) {
        Command::Fetch => {
            let at = register_bytes::frame_number(block);
            let fetched = stream.fetch(at, tables, out);
            register_bytes::told(stream, true, fetch_number(fetched), block);
        }
        command => ring_step(stream, command, block, frame),
    }
    Ok(())
}
