//! The block of registers, sixteen bytes: what it asks for, what it says of the stream, and how a
//! step rewrites it. specs/Board.antt says what each byte is.

ghost use Rattle.std.specs.Prelude.{◌≡◌, ◌&&◌, ◌||◌, ◌/◌, ◌<◌, nat_eq, length};
ghost use Rattle.stream.specs.Stream.{record_of, rings_of};
ghost use Rattle.board.specs.Board.{frame_number, bit, odd, interrupt_of, held_count, room_for_push, rewritten, call_flags};
ghost use Rattle.board.specs.Inner.RegisterBytes.{command_at};

use definition::IvectorStream;
use stream::Stream;

// ---- what a block asks for

/// What byte 0 of a block asks for. A byte that is no command's asks for nothing.
#[derive(Clone, Copy, Debug, PartialEq, Eq)]
pub enum Command {
    Push,
    Finish,
    Forget,
    Fetch,
    Nothing,
}

impl From<u8> for Command {
    ghost from_gives = { λ b c. c ≡ command_at b };

    #[tactic(auto, unfolding(crate::specs::Inner::RegisterBytes::command_at))]
    fn from(byte: u8) -> Command {
        match byte {
            1 => Command::Push,
            2 => Command::Finish,
            3 => Command::Forget,
            4 => Command::Fetch,
            _ => Command::Nothing,
        }
    }
}

/// The frame number of a block: bytes 4 to 7, the lowest first.
#[tactic(auto, unfolding(definition::specs::Reader::little_endian))]
pub fn frame_number(block: &[u8]) -> usize
    requires { length block.now ≡ 16 }
    ensures { result ≡ frame_number block.now }
{
    u32::from_le_bytes([block[4], block[5], block[6], block[7]]) as usize
}

// ---- what a block tells

// Whether bit 0 is 1 in both bytes.
fn both_odd(a: u8, b: u8) -> bool
    ensures { result ≡ (odd a && odd b) }
{
    a % 2 == 1 && b % 2 == 1
}

// Byte 3: 1 where a flag and its mask bit are both 1.
#[tactic(auto, unfolding(crate::specs::Board::interrupt_of))]
fn interrupt(flags: u8, mask: u8) -> u8
    ensures { result ≡ interrupt_of flags mask }
{
    u8::from(
        both_odd(flags, mask) || both_odd(flags / 2, mask / 2) || both_odd(flags / 4, mask / 4),
    )
}

// Bits 0 and 1 after a command: a fetch that was taken; refused.
#[tactic(auto, unfolding(crate::specs::Board::call_flags))]
fn call_flags(fetch: bool, refusal: usize) -> u8
    ensures flags { result ≡ call_flags fetch refusal }
    ensures bound { result < 4 }
{
    if refusal == 0 { u8::from(fetch) } else { 2 }
}

// Rewrites the block. `low` is bits 0 and 1 of the flags, `room` bit 2, `number` byte 12.
#[tactic(auto, unfolding(crate::specs::Board::rewritten, crate::specs::Board::bytes_of))]
fn rewrite(block: &mut [u8], low: u8, number: u8, held: usize, room: bool)
    requires long { length block.old ≡ 16 }
    requires low_bits { low < 4 }
    ensures { block.new ≡ rewritten block.old low number held room }
{
    let flags = low + 4 * u8::from(room);
    let mask = block[2];
    let line = interrupt(flags, mask);
    let count = held.to_le_bytes();
    let bytes = [
        0, flags, mask, line, block[4], block[5], block[6], block[7], count[0], count[1], count[2],
        count[3], number, 0, 0, 0,
    ];
    block.copy_from_slice(&bytes);
}

// ---- what a stream tells

// Whether every push is refused for want of numbers or room, by the frames and the rows that are
// held.
fn is_full(s: &IvectorStream, frames_held: usize, rows_held: usize) -> bool
    requires some_base { 0 < s.now.info.dims.base_dim }
    ensures { (
        let own = s.now.lengths.rings in
        let dim = s.now.info.dims.base_dim in
        result ≡ (nat_eq s.now.accepted 1000000000
        || (nat_eq frames_held (own.frames / dim) || nat_eq rows_held (own.rows / dim)))) }
{
    let own = s.lengths.rings;
    let dim = s.info.dims.base_dim;
    s.accepted == 1000000000 || frames_held == own.frames / dim || rows_held == own.rows / dim
}

// How many frames are held, and whether there is room for a push.
fn push_room(stream: &Stream<'_>) -> (usize, bool)
    ensures held { result.0 ≡ held_count (record_of stream.now) (rings_of stream.now) }
    ensures room { result.1 ≡ room_for_push (record_of stream.now) (rings_of stream.now) }
{
    match stream.plain_refusal() {
        Err(_) => (0, false),
        Ok(()) => {
            let s = &*stream.record;
            let frames_held = limits::frames_held(s.accepted, s.mark);
            let rows_held = limits::rows_held(s.longest, s.accepted, s.mark);
            (frames_held, !is_full(s, frames_held, rows_held))
        }
    }
}

// ---- the block after a step

/// Rewrites the block by the stream as it stands. `low` is bits 0 and 1 of the flags, `number` byte
/// 12.
pub fn settle(stream: &Stream<'_>, low: u8, number: u8, block: &mut [u8])
    requires long { length block.old ≡ 16 }
    requires low_bits { low < 4 }
    ensures { block.new ≡ rewritten block.old low number
        (held_count (record_of stream.now) (rings_of stream.now))
        (room_for_push (record_of stream.now) (rings_of stream.now)) }
{
    let (held, room) = push_room(stream);
    rewrite(block, low, number, held, room);
}

/// Rewrites the block after a command that was answered `refusal`. `fetch` is bit 0 of a command
/// that is taken.
pub fn told(stream: &Stream<'_>, fetch: bool, refusal: usize, block: &mut [u8])
    requires long { length block.old ≡ 16 }
    requires byte { refusal < 256 }
    ensures { block.new ≡ rewritten block.old (call_flags fetch refusal) refusal
        (held_count (record_of stream.now) (rings_of stream.now))
        (room_for_push (record_of stream.now) (rings_of stream.now)) }
{
    settle(stream, call_flags(fetch, refusal), refusal as u8, block);
}
