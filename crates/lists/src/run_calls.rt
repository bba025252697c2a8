//! A list of calls, given as slices and played on a stream from the first to the last. Its answers
//! are the keeping machine's.

ghost use Rattle.std.specs.Prelude.{◌≡◌, List, ℕ, IfErr, ◌+◌, ◌*◌, ◌≤◌, ◌<◌, length};
ghost use Rattle.loops.specs.Refusal.{taken};
ghost use Rattle.definition.specs.Lent.{tables_in};
ghost use Rattle.definition.specs.Number.{number_of as refusal_number, refused_by};
ghost use Rattle.definition.specs.Model.{Tables, model_in};
ghost use Rattle.definition.specs.Machine as M;
ghost use Rattle.definition.specs.Machine.{Call};
ghost use Rattle.program.specs.Rooms.{Rooms, ring_lengths_of};
ghost use Rattle.program.specs.Calls.{answer_of};
ghost use Rattle.program.specs.Session.{program_after};
ghost use Rattle.stream.specs.Stream.{record_of, rooms_of, program_of, fresh_program, Few, SameRooms, not_finite_in, nans_in};
ghost use Rattle.lists.specs.Listed.{part, calls, numbers_of, Written, written, writes, run_refusal, list_refusal};
ghost use Rattle.lists.specs.Turns.{Means, coded_at, decoded, Turned};

use definition::{IvectorInfo, LentTables, Refusal, StreamAnswer, need};
use stream::{Fetched, Stream};

/// What a call does.
#[derive(Clone, Copy, Debug, PartialEq, Eq)]
pub enum Kind {
    Push,
    Finish,
    Change,
    Forget,
    Fetch,
    Window,
}

/// The kind of a number; every number that is no other kind's is a fetch.
impl From<u8> for Kind {
    ghost from_gives = { Means };

    fn from(number: u8) -> Kind {
        match number {
            0 => Kind::Push,
            1 => Kind::Finish,
            2 => Kind::Change,
            3 => Kind::Forget,
            5 => Kind::Window,
            _ => Kind::Fetch,
        }
    }
}

/// A call of a list: the number of its kind, and four numbers. What they mean: `call_at` of
/// specs/Listed.antt.
#[derive(Clone, Copy, Debug, Default, PartialEq, Eq)]
pub struct CodedCall {
    pub kind: u8,
    pub a: usize,
    pub b: usize,
    pub c: usize,
    pub d: usize,
}

/// A list of calls.
#[derive(Clone, Copy)]
pub struct CallList<'a> {
    /// The number of each call's kind.
    pub kinds: &'a [u8],
    /// Four numbers of each call, one call after the other.
    pub numbers: &'a [usize],
    /// The frames that changes name.
    pub lists: &'a [usize],
    /// The numbers of frames to push, and the weights of changes.
    pub samples: &'a [f32],
}

// The items from index a to before index b, which may be any numbers: none where a is past the end,
// cut where b is.
fn part<T>(items: &[T], a: usize, b: usize) -> &[T]
    ensures { result.now ≡ part a b items.now }
{
    let rest = &items[a.min(items.len())..];
    &rest[..b.saturating_sub(a).min(rest.len())]
}

// Call i of a list.
fn call_at(list: CallList<'_>, i: usize) -> CodedCall
    requires { (i < length list.kinds.now) × (i * 4 + 4 ≤ length list.numbers.now) }
    ensures { result ≡ coded_at list.entry.kinds.now list.entry.numbers.now i }
{
    let numbers = &list.numbers[i * 4..i * 4 + 4];
    CodedCall {
        kind: list.kinds[i],
        a: numbers[0],
        b: numbers[1],
        c: numbers[2],
        d: numbers[3],
    }
}

// An answer as it is written.
fn numbers_of(a: StreamAnswer) -> [usize; 5]
    ensures { result ≡ numbers_of a }
{
    [
        a.refusal,
        a.frames_held,
        a.rows_held,
        a.not_finite,
        a.nan_likelihoods,
    ]
}

// The answer of a call that gives no vector.
fn answered(taken: Result<(), Refusal>, stream: &Stream<'_>) -> StreamAnswer
    requires { Few taken stream.now }
    ensures { result ≡ answer_of (refused_by taken) (record_of stream.now) 0 0 }
{
    answers::answered(taken, stream.record)
}

// The answer of a fetch.
fn fetch_answer(taken: Result<Fetched, Refusal>, stream: &Stream<'_>) -> StreamAnswer
    requires { Few taken stream.now }
    ensures { result
        ≡ answer_of (refused_by taken) (record_of stream.now) (not_finite_in taken) (nans_in taken) }
{
    answers::fetch_answer(taken, stream.record)
}

/// Plays one call of a list on a stream, and returns its answer. The vector of a fetch goes to
/// places `b` to before `c` of `outs`, cut at their end.
pub fn turn(
    call: CodedCall,
    stream: &mut Stream<'_>,
    lists: &[usize],
    samples: &[f32],
    tables: LentTables<'_>,
    outs: &mut [u32],
) -> StreamAnswer
    ensures call { (
        let c : Call = decoded call lists.now samples.now (length outs.old) in
        Turned (tables_in tables.entry) (length stream.old.scratch.now)
        (program_of stream.old) c call.b outs.old result (program_of stream.new) outs.new) }
    ensures scratch { length stream.new.scratch.now ≡ length stream.old.scratch.now }
    ensures rooms { SameRooms stream.old stream.new }
{
    match Kind::from(call.kind) {
        Kind::Push => {
            let frame = part(samples, call.a, call.b);
            let pushed = stream.push(frame);
            answered(pushed, stream)
        }
        Kind::Finish => {
            let finished = stream.finish();
            answered(finished, stream)
        }
        Kind::Change => {
            let delta_frames = part(lists, call.a, call.b);
            let delta_weights = part(samples, call.c, call.d);
            let changed = stream.change(delta_frames, delta_weights);
            answered(changed, stream)
        }
        Kind::Forget => {
            let forgotten = stream.forget(call.a);
            answered(forgotten, stream)
        }
        Kind::Window => {
            let set = stream.set_window(call.a);
            answered(set, stream)
        }
        Kind::Fetch => {
            // any numbers are taken: the ends are cut to what `outs` has
            let from = call.b.min(outs.len());
            let count = call.c.saturating_sub(call.b).min(outs.len() - from);
            let out = &mut outs[from..from + count];
            let fetched = stream.fetch(call.a, tables, out);
            fetch_answer(fetched, stream)
        }
    }
}

// `ListTooShort`: the numbers of n calls, or the room for their answers, are too short.
#[tactic(auto, unfolding(crate::specs::Listed::list_refusal, loops::specs::Refusal::first_of))]
fn check_list(n: usize, numbers: usize, answers: usize) -> Result<(), Refusal>
    ensures value { refused_by result ≡ list_refusal n numbers answers }
    ensures one_number { IfErr result (λ e. refusal_number e ≡ 99) }
{
    need(n <= numbers / 4, Refusal::ListTooShort)?;
    need(n <= answers / 5, Refusal::ListTooShort)
}

/// Makes a fresh stream and plays `list` on it. The answer of call i goes to `answers` from index 5
/// i on, the vector of a fetch to the part of `outs` that its numbers name.
///
/// # Errors
///
/// `ListTooShort` where the list's numbers or `answers` are too short, else what a fresh stream
/// refuses with. Then nothing is played.
pub fn run(
    info: IvectorInfo,
    tables: LentTables<'_>,
    stream: &mut Stream<'_>,
    list: CallList<'_>,
    answers: &mut [usize],
    outs: &mut [u32],
) -> Result<(), Refusal>
    ensures run { (
        let t : Tables = tables_in tables.entry in
        let z : Rooms = rooms_of stream.old in
        let n : ℕ = length stream.old.scratch.now in
        let l : CallList = list.entry in
        let cs : List Call = calls l.kinds.now l.numbers.now l.lists.now l.samples.now
        (length outs.old) in
        let o : Written = written answers.old outs.old in
        let r : ℕ = refused_by result in
        (r ≡ run_refusal info t z n (length l.kinds.now) (length l.numbers.now)
        (length answers.old))
        × (written answers.new outs.new
        ≡ taken r
        (writes l.numbers.now 0 (M.answers (model_in info t) (ring_lengths_of z.rings) cs) o) o)
        × (program_of stream.new
        ≡ taken r (program_after t n (fresh_program info stream.old) cs) (program_of stream.old))
        × ((r ≡ 0 → ⊥) → stream.new.scratch.now ≡ stream.old.scratch.now)) }
    ensures rooms { SameRooms stream.old stream.new }
{
    check_list(list.kinds.len(), list.numbers.len(), answers.len())?;
    stream.start(info, tables)?;
    // by index (limit: zip)
    for i in 0..list.kinds.len() {
        let call = call_at(list, i);
        let told = turn(call, stream, list.lists, list.samples, tables, outs);
        answers[i * 5..i * 5 + 5].copy_from_slice(&numbers_of(told));
    }
    Ok(())
}
