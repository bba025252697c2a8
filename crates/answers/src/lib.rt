//! The records that C gets for a call's `Result`: beside a refusal's number stands a record that no
//! call takes.
#![tactic(auto)]

ghost use Rattle.std.specs.Prelude.{◌≡◌, ◌≤◌};
ghost use Rattle.definition.specs.Number.{refused_by, numbered};
ghost use Rattle.program.specs.Calls.{answer_of};
ghost use Rattle.stream.specs.Stream.{not_finite_in, nans_in};
ghost use Rattle.answers.specs.Answers.{no_info, load_answer, no_options, no_stream, made, new_stream_answer, no_table, new_table_answer};

use definition::{
    IvectorInfo, IvectorOptions, IvectorStream, Refusal, SilenceWeighting, StreamAnswer,
    StreamCall, number_or_0,
};
use stream::Fetched;

/// The answer of a load: the model's record, or beside a refusal one that no fresh stream takes.
#[repr(C)]
#[derive(Clone, Copy, Debug, PartialEq)]
pub struct LoadAnswer {
    pub refusal: usize,
    pub info: IvectorInfo,
}

/// The answer of a new silence table: its record, or beside a refusal one that every call refuses
/// with 10.
#[repr(C)]
#[derive(Clone, Copy, Debug, PartialEq)]
pub struct NewTableAnswer {
    pub refusal: usize,
    pub silence: SilenceWeighting,
}

// ---- load

// The model's record beside a refusal: it has no dimension.
fn no_info(opts: IvectorOptions) -> IvectorInfo
    ensures { result ≡ no_info opts }
{
    IvectorInfo {
        opts,
        ..IvectorInfo::default()
    }
}

/// The record of a load with the options `opts`. A refusal is given by its number.
#[tactic(auto, unfolding(crate::specs::Answers::load_answer))]
pub fn load_answer(opts: IvectorOptions, a: Result<IvectorInfo, usize>) -> LoadAnswer
    ensures { result ≡ load_answer opts a }
{
    match a {
        Ok(info) => LoadAnswer { refusal: 0, info },
        Err(refusal) => {
            let info = no_info(opts);
            LoadAnswer { refusal, info }
        }
    }
}

// ---- the maker's settings

/// The options beside a refusal: a load refuses them with 1.
pub fn no_options() -> IvectorOptions
    ensures { result ≡ no_options }
{
    IvectorOptions::default()
}

// ---- a fresh stream

// The stream's record beside a refusal: no room fits it.
#[tactic(auto, unfolding(program::specs::Calls::fresh_stream))]
fn no_stream(info: IvectorInfo) -> IvectorStream
    ensures { result ≡ no_stream info }
{
    IvectorStream {
        info,
        window: info.opts.cmn_window,
        longest: info.opts.cmn_window,
        ..IvectorStream::default()
    }
}

/// The record of a fresh stream on the model `info`. A refusal is given by its number.
#[tactic(auto, unfolding(crate::specs::Answers::new_stream_answer))]
pub fn stream_answer(info: IvectorInfo, a: Result<StreamCall, usize>) -> StreamCall
    ensures { result ≡ new_stream_answer info a }
{
    match a {
        Ok(call) => call,
        Err(refusal) => StreamCall {
            answer: StreamAnswer {
                refusal,
                ..StreamAnswer::default()
            },
            stream: no_stream(info),
        },
    }
}

/// The record of a start on the model `info` that left the record `s`.
pub fn start_answer(info: IvectorInfo, started: Result<(), Refusal>, s: IvectorStream) -> StreamCall
    requires { refused_by started ≡ 0 → (s.accepted ≤ 1000000000) × (s.mark ≤ 1000000000) }
    ensures { result ≡ new_stream_answer info (made started s) }
{
    match started {
        Ok(()) => {
            let answer = reply(0, &s, 0, 0);
            stream_answer(info, Ok(StreamCall { answer, stream: s }))
        }
        Err(e) => stream_answer(info, Err(e.number())),
    }
}

// ---- a call on a stream

// The answer of a call that leaves the record `s`. Beside refusal 10 every count is 0: the record
// says nothing.
#[tactic(auto, unfolding(program::specs::Calls::answer_of))]
fn reply(
    refusal: usize,
    s: &IvectorStream,
    not_finite: usize,
    nan_likelihoods: usize,
) -> StreamAnswer
    requires { (refusal ≡ 10 → ⊥) → (s.now.accepted ≤ 1000000000) × (s.now.mark ≤ 1000000000) }
    ensures { result ≡ answer_of refusal s.now not_finite nan_likelihoods }
{
    if refusal == 10 {
        return StreamAnswer {
            refusal,
            ..StreamAnswer::default()
        };
    }
    let frames_held = limits::frames_held(s.accepted, s.mark);
    let rows_held = limits::rows_held(s.longest, s.accepted, s.mark);
    StreamAnswer {
        refusal,
        frames_held,
        rows_held,
        not_finite,
        nan_likelihoods,
    }
}

/// The answer of a call that gives no vector and leaves the record `s`.
pub fn answered(taken: Result<(), Refusal>, s: &IvectorStream) -> StreamAnswer
    requires { (refused_by taken ≡ 10 → ⊥)
        → (s.now.accepted ≤ 1000000000) × (s.now.mark ≤ 1000000000) }
    ensures { result ≡ answer_of (refused_by taken) s.now 0 0 }
{
    reply(number_or_0(taken), s, 0, 0)
}

/// The answer of a fetch that leaves the record `s`.
pub fn fetch_answer(taken: Result<Fetched, Refusal>, s: &IvectorStream) -> StreamAnswer
    requires { (refused_by taken ≡ 10 → ⊥)
        → (s.now.accepted ≤ 1000000000) × (s.now.mark ≤ 1000000000) }
    ensures { result ≡ answer_of (refused_by taken) s.now (not_finite_in taken) (nans_in taken) }
{
    match taken {
        Ok(told) => reply(0, s, told.not_finite, told.nan_likelihoods),
        Err(e) => reply(e.number(), s, 0, 0),
    }
}

// ---- the silence table

/// The record of a new silence table. A refusal is given by its number; beside it stands a record
/// with no subsampling.
#[tactic(auto, unfolding(crate::specs::Answers::new_table_answer))]
pub fn table_answer(a: Result<SilenceWeighting, usize>) -> NewTableAnswer
    ensures { result ≡ new_table_answer a }
{
    match a {
        Ok(silence) => NewTableAnswer {
            refusal: 0,
            silence,
        },
        Err(number) => NewTableAnswer {
            refusal: number,
            silence: SilenceWeighting::default(),
        },
    }
}

impl From<Result<SilenceWeighting, Refusal>> for NewTableAnswer {
    ghost from_gives = { λ a r. r ≡ new_table_answer (numbered a) };

    fn from(a: Result<SilenceWeighting, Refusal>) -> NewTableAnswer {
        table_answer(definition::numbered(a))
    }
}
