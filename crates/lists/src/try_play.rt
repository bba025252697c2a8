//! A load, played: each call is drawn and then played on a stream. The totals are those over the
//! calls and the keeping machine's answers.

ghost use Rattle.std.specs.Prelude.{◌≡◌, List, ℕ, ◌≤◌, ◌<◌, length, replicate};
ghost use Rattle.loops.specs.Refusal.{taken};
ghost use Rattle.definition.specs.Lent.{tables_in};
ghost use Rattle.definition.specs.Model.{Tables, model_in};
ghost use Rattle.definition.specs.Machine as M;
ghost use Rattle.definition.specs.Machine.{Call};
ghost use Rattle.program.specs.Rooms.{Rooms, ring_lengths_of};
ghost use Rattle.program.specs.Session.{program_after, program_answers};
ghost use Rattle.stream.specs.Stream.{rooms_of, program_of, fresh_program, SameRooms};
ghost use Rattle.lists.specs.Draws.{drawn_calls};
ghost use Rattle.lists.specs.Inner.TryNotes.{tally};
ghost use Rattle.lists.specs.Totals.{totals, no_totals, play_refusal};
ghost use Rattle.lists.specs.Inner.TryPlay.{tallied, totals_of};

use crate::try_load::{self, Place};
use crate::{run_calls, try_notes};
use definition::{IvectorInfo, LentTables, Refusal};
use stream::Stream;

/// The totals of a load.
#[derive(Clone, Copy, Debug, PartialEq, Eq)]
pub struct Totals {
    /// How many calls were drawn of each kind.
    pub calls: [usize; 5],
    /// How many answers had each refusal number; the first place is for those that were taken.
    pub refusals: [usize; 34],
    /// The greatest number of frames held.
    pub greatest: usize,
}

// Draws and plays all calls on a stream.
fn play_calls(
    dim: usize,
    seed: u32,
    times: usize,
    stream: &mut Stream<'_>,
    tables: LentTables<'_>,
) -> Totals
    requires { (0 < dim) × (dim ≤ 64) × (times ≤ 10000) }
    ensures played { (
        let t : Tables = tables_in tables.entry in
        let n : ℕ = length stream.old.scratch.now in
        let cs : List Call = drawn_calls dim seed times in
        (tally result.calls result.refusals result.greatest
        ≡ tallied (tally (replicate 5 0) (replicate 34 0) 0) cs
        (program_answers t n (program_of stream.old) cs))
        × (program_of stream.new ≡ program_after t n (program_of stream.old) cs)) }
    ensures rooms { SameRooms stream.old stream.new }
{
    let mut p = Place {
        state: seed,
        pushes: 0,
    };
    let mut lists = [0usize; 1];
    let mut samples = [0.0f32; 64];
    let mut outs = [0u32; 1];
    let mut calls = [0usize; 5];
    let mut refusals = [0usize; 34];
    let mut greatest = 0;
    for i in 0..times {
        let call = try_notes::draw_call(dim, p.state, p.pushes, &mut lists, &mut samples);
        let told = run_calls::turn(call, stream, &lists, &samples, tables, &mut outs);
        greatest = try_notes::note(&mut calls, &mut refusals, greatest, call.kind, told);
        p = try_load::next_place(dim, p);
    }
    Totals {
        calls,
        refusals,
        greatest,
    }
}

/// Makes a fresh stream and plays `times` calls on it, each drawn from the seed just before.
///
/// # Errors
///
/// `TrySizes` for a size outside its limits, else what a fresh stream refuses with. Then nothing is
/// played.
pub fn play(
    info: IvectorInfo,
    tables: LentTables<'_>,
    stream: &mut Stream<'_>,
    seed: usize,
    times: usize,
) -> Result<Totals, Refusal>
    ensures play { (
        let t : Tables = tables_in tables.entry in
        let z : Rooms = rooms_of stream.old in
        let n : ℕ = length stream.old.scratch.now in
        let cs : List Call = drawn_calls info.dims.base_dim seed times in
        let q : ℕ = play_refusal info t z n seed times in
        (totals_of result
        ≡ taken q (totals cs (M.answers (model_in info t) (ring_lengths_of z.rings) cs))
        (no_totals q))
        × (program_of stream.new
        ≡ taken q (program_after t n (fresh_program info stream.old) cs) (program_of stream.old))
        × ((q ≡ 0 → ⊥) → stream.new.scratch.now ≡ stream.old.scratch.now)) }
    ensures rooms { SameRooms stream.old stream.new }
{
    let dim = info.dims.base_dim;
    try_load::size_refusal(seed, dim, times)?;
    stream.start(info, tables)?;
    let state = seed as u32;
    Ok(play_calls(dim, state, times, stream, tables))
}
