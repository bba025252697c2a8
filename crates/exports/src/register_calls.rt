//! A board with registers.

ghost use Rattle.std.specs.Prelude.{◌≡◌, ℕ, length};
ghost use Rattle.definition.specs.Model.{Tables, tables_from};
ghost use Rattle.program.specs.Rooms.{rings_from, estimate_from, Rooms, rooms_from};
ghost use Rattle.program.specs.Session.{program};
ghost use Rattle.board.specs.Board.{Board, board, block_refusal, board_step, FetchTaken};

use board::registers;
use definition::{IvectorStream, LentTables, number_or_0};
use stream::Stream;

/// The answer of a step over registers: 0, or 10 for a block that has not sixteen bytes.
#[repr(C)]
#[derive(Clone, Copy)]
pub struct StepAnswer {
    pub refusal: usize,
}

/// One step over a block of sixteen bytes. A command that is refused is told in the block alone.
/// Refuses with 10 a block of another length. See [`registers::step`].
#[unsafe(no_mangle)]
pub extern "C" fn shofrakin_registers_step(
    s: &mut IvectorStream,
    block: &mut [u8],
    frame: &[f32],
    gconsts: &[f32],
    means_invvars_t: &[f32],
    inv_vars_t: &[f32],
    sigma_inv_m: &[f64],
    u: &[f64],
    lda_t: &[f32],
    lda_offset: &[f32],
    global_mean_stats: &[f64],
    frames: &mut [f32],
    rows: &mut [f64],
    waiting_frames: &mut [usize],
    waiting_weights: &mut [f32],
    cmvn_stats: &mut [f64],
    linear: &mut [f64],
    quadratic: &mut [f64],
    current: &mut [f64],
    scratch: &mut [f64],
    out: &mut [u32],
) -> StepAnswer
    ensures { (
        let t : Tables = tables_from gconsts.now means_invvars_t.now inv_vars_t.now sigma_inv_m.now
        u.now lda_t.now lda_offset.now global_mean_stats.now in
        let z : Rooms = rooms_from
        (rings_from frames.old rows.old waiting_frames.old waiting_weights.old)
        (estimate_from cmvn_stats.old linear.old quadratic.old current.old) in
        let y : Rooms = rooms_from
        (rings_from frames.new rows.new waiting_frames.new waiting_weights.new)
        (estimate_from cmvn_stats.new linear.new quadratic.new current.new) in
        let a : Board = board (program s.old z) block.old out.old in
        let n : ℕ = length scratch.old in
        (result.refusal ≡ block_refusal block.old)
        × (board (program s.new y) block.new out.new ≡ board_step t n frame.now a)
        × ((FetchTaken t n a → ⊥) → scratch.new ≡ scratch.old)) }
{
    let tables = LentTables {
        gconsts,
        means_invvars_t,
        inv_vars_t,
        sigma_inv_m,
        u,
        lda_t,
        lda_offset,
        global_mean_stats,
    };
    let mut stream = Stream {
        record: s,
        frames,
        rows,
        waiting_frames,
        waiting_weights,
        cmvn_stats,
        linear,
        quadratic,
        current,
        scratch,
    };
    let done = registers::step(&mut stream, block, frame, tables, out);
    StepAnswer {
        refusal: number_or_0(done),
    }
}
