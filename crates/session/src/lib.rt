//! A session by one call: a model's files are loaded, a fresh stream is made over the tables that
//! they fill, and a list of calls is played on it. The contract is the claim from bytes: the
//! answers are those of the keeping machine over the model that the bytes define.
#![tactic(auto)]

ghost use Rattle.std.specs.Prelude.{◌≡◌, List, ℕ, length};
ghost use Rattle.definition.specs.Model.{Files, Tables, tables_from, table_lengths_of, load as load_of, loaded_tables};
ghost use Rattle.definition.specs.Machine.{Call};
ghost use Rattle.program.specs.Session.{Program};
ghost use Rattle.stream.specs.Stream.{program_of, SameRooms};
ghost use Rattle.model.specs.Load.{files_of};
ghost use Rattle.lists.specs.Listed.{calls, written, writes, list_refusal};
ghost use Rattle.whole.specs.Whole.{Answered, machine_session};
ghost use Rattle.session.specs.Session.{written_of, returned_with, session_answered, program_left};

use definition::{IvectorOptions, LentTables, Refusal, StreamAnswer};
use lists::run_calls::{self, CallList};
use model::ivector_info;
use stream::Stream;

/// Why nothing was played.
#[derive(Clone, Copy, Debug, PartialEq, Eq)]
pub enum NotPlayed {
    /// The files or the tables that they are to fill.
    Load(Refusal),
    /// The list, or the stream's rooms.
    Stream(Refusal),
}

// A fresh stream's answer: no frame is held, and one prefix row.
const FRESH: StreamAnswer = StreamAnswer {
    refusal: 0,
    frames_held: 0,
    rows_held: 1,
    not_finite: 0,
    nan_likelihoods: 0,
};

/// Loads the model of four files into the tables, makes a fresh stream of `stream`, and plays
/// `list` on it. Answers and vectors are written as [`run_calls::run`] writes them. It returns the
/// fresh stream's answer.
///
/// # Errors
///
/// `NotPlayed` says whether the load or the stream was refused. Then nothing is played.
pub fn session(
    opts: IvectorOptions,
    gmm: &[u8],
    extractor: &[u8],
    lda: &[u8],
    cmvn: &[u8],
    gconsts: &mut [f32],
    means_invvars_t: &mut [f32],
    inv_vars_t: &mut [f32],
    sigma_inv_m: &mut [f64],
    u: &mut [f64],
    lda_t: &mut [f32],
    lda_offset: &mut [f32],
    global_mean_stats: &mut [f64],
    load_scratch: &mut [f64],
    stream: &mut Stream<'_>,
    list: CallList<'_>,
    answers: &mut [usize],
    outs: &mut [u32],
) -> Result<StreamAnswer, NotPlayed>
    ensures session { (
        let f : Files = files_of gmm.now extractor.now lda.now cmvn.now in
        let t : Tables = tables_from gconsts.old means_invvars_t.old inv_vars_t.old sigma_inv_m.old
        u.old lda_t.old lda_offset.old global_mean_stats.old in
        let p : Program = program_of stream.old in
        let n : ℕ = length load_scratch.old in
        let m : ℕ = length stream.old.scratch.now in
        let l : CallList = list.entry in
        let cs : List Call = calls l.kinds.now l.numbers.now l.lists.now l.samples.now
        (length outs.old) in
        let x : Answered = session_answered opts f t n p.rooms m cs
        (list_refusal (length l.kinds.now) (length l.numbers.now) (length answers.old)) in
        (returned_with result (written_of x) ≡ x)
        × (written answers.new outs.new
        ≡ writes l.numbers.now 0 (written_of x) (written answers.old outs.old))
        × (tables_from gconsts.new means_invvars_t.new inv_vars_t.new sigma_inv_m.new u.new
        lda_t.new lda_offset.new global_mean_stats.new
        ≡ loaded_tables (load_of opts f (table_lengths_of t) n) t)
        × (program_of stream.new ≡ program_left opts f t n p m cs x)) }
    ensures rooms { SameRooms stream.old stream.new }
{
    let loaded = ivector_info::load(
        opts,
        gmm,
        extractor,
        lda,
        cmvn,
        gconsts,
        means_invvars_t,
        inv_vars_t,
        sigma_inv_m,
        u,
        lda_t,
        lda_offset,
        global_mean_stats,
        load_scratch,
    );
    let info = match loaded {
        Ok(info) => info,
        Err(refusal) => return Err(NotPlayed::Load(refusal)),
    };
    let tables = LentTables {
        gconsts,
        means_invvars_t,
        inv_vars_t,
        sigma_inv_m,
        u,
        lda_t,
        lda_offset,
        global_mean_stats,
    };
    let ran = run_calls::run(info, tables, stream, list, answers, outs);
    match ran {
        Ok(()) => Ok(FRESH),
        Err(refusal) => Err(NotPlayed::Stream(refusal)),
    }
}
