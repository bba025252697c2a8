//! The calls of the library. They are lent the program's rooms.
use super::rooms::{Rooms, TableRooms, Tables};
use super::round::Asked;
use super::session::Session;
use definition::{
    EstimateLengths, IvectorInfo, IvectorOptions, IvectorStream, LentTables, Refusal, RingLengths,
    SilenceWeighting, StreamAnswer,
};
use model::{ivector_info, memory};
use rounds::silence_weighting::SilenceRooms;
use rounds::trigger::{self, TriggerRound};
use script::{Files, Words, front, lend};
use stream::Stream;

/// How many numbers a model keeps in each room of its estimate.
pub(crate) fn estimate_lengths(info: IvectorInfo) -> EstimateLengths {
    let needed = memory::rooms_needed(info.dims, 1, 2, 0);
    needed.lengths.estimate
}

impl Tables {
    /// The tables are lent whole.
    pub(crate) fn load(
        &mut self,
        opts: IvectorOptions,
        files: Files<'_>,
    ) -> Result<IvectorInfo, Refusal> {
        let mut gmm = [0u8; 1024];
        let mut extractor = [0u8; 1024];
        let mut lda = [0u8; 1024];
        let mut cmvn = [0u8; 1024];
        let mut words = Words { rest: files.gmm };
        let gmm = words.bytes(&mut gmm);
        words.rest = files.extractor;
        let extractor = words.bytes(&mut extractor);
        words.rest = files.lda;
        let lda = words.bytes(&mut lda);
        words.rest = files.cmvn;
        let cmvn = words.bytes(&mut cmvn);
        ivector_info::load(
            opts,
            gmm,
            extractor,
            lda,
            cmvn,
            &mut self.gconsts,
            &mut self.means_invvars_t,
            &mut self.inv_vars_t,
            &mut self.sigma_inv_m,
            &mut self.u,
            &mut self.lda_t,
            &mut self.lda_offset,
            &mut self.global_mean_stats,
            &mut [0.0; 128],
        )
    }
}

impl Rooms {
    /// A stream of this record, of the rings' fronts and of the other rooms whole.
    pub(crate) fn stream<'a>(
        &'a mut self,
        z: RingLengths,
        record: &'a mut IvectorStream,
    ) -> Stream<'a> {
        let Rooms {
            frames,
            rows,
            waiting_frames,
            waiting_weights,
            cmvn_stats,
            linear,
            quadratic,
            current,
            scratch,
        } = self;
        Stream {
            record,
            frames: lend(frames, z.frames),
            rows: lend(rows, z.rows),
            waiting_frames: lend(waiting_frames, z.waiting_frames),
            waiting_weights: lend(waiting_weights, z.waiting_weights),
            cmvn_stats,
            linear,
            quadratic,
            current,
            scratch,
        }
    }
}

impl TableRooms {
    /// The silence phones, and the rooms' fronts.
    fn lent<'a>(&'a mut self, known_phones: usize, n: usize) -> (&'a [i32], SilenceRooms<'a>) {
        let TableRooms {
            phones,
            known,
            is_silence,
            current_weight,
        } = self;
        let rooms = SilenceRooms {
            known: lend(known, n),
            is_silence: lend(is_silence, n),
            current_weight: lend(current_weight, n),
        };
        (front(phones, known_phones), rooms)
    }
}

/// The answer of a start on a stream.
pub(crate) fn start(
    stream: &mut Stream<'_>,
    info: IvectorInfo,
    tables: LentTables<'_>,
) -> Result<StreamAnswer, Refusal> {
    stream.start(info, tables)?;
    Ok(answers::answered(Ok(()), stream.record))
}

/// The answer of a finish on a stream.
pub(crate) fn finish(stream: &mut Stream<'_>) -> StreamAnswer {
    let finished = stream.finish();
    answers::answered(finished, stream.record)
}

/// The answer of a forget on a stream.
pub(crate) fn forget(stream: &mut Stream<'_>, frame: usize) -> StreamAnswer {
    let forgotten = stream.forget(frame);
    answers::answered(forgotten, stream.record)
}

impl<'a> Session<'a> {
    /// A round on the stream and the silence table of these records. The silence phones are those of the table
    /// that is open, not of the one that the round is told.
    pub(crate) fn call_round(
        &mut self,
        record: &mut IvectorStream,
        silence: &mut SilenceWeighting,
        asked: Asked<'_>,
    ) -> TriggerRound {
        let Asked {
            utterance,
            delta_frames,
            delta_weights,
            out,
            voices,
        } = asked;
        let known_phones = self.table.map_or(0, |t| t.phones);
        let z = record.lengths.rings;
        let (phones, mut table_rooms) = self.silence.lent(known_phones, silence.table);
        let mut stream = self.rooms.stream(z, record);
        trigger::round(
            &mut stream,
            silence,
            utterance,
            self.tables.lent(),
            phones,
            &mut table_rooms,
            delta_frames,
            delta_weights,
            out,
            voices,
        )
    }
}
