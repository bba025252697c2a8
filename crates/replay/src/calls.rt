//! The calls of the library. They are lent the fronts of the program's rooms that the script wants.
use super::rooms::{Lengths, Rooms, Tables};
use definition::{IvectorInfo, IvectorOptions, IvectorStream, LentTables, Refusal, StreamAnswer};
use model::ivector_info;
use script::{Files, lend};
use stream::Stream;

impl Tables {
    pub(crate) fn load(
        &mut self,
        z: &Lengths,
        opts: IvectorOptions,
        files: Files<'_>,
    ) -> Result<IvectorInfo, Refusal> {
        ivector_info::load(
            opts,
            files.gmm,
            files.extractor,
            files.lda,
            files.cmvn,
            lend(&mut self.gconsts, z.0[0]),
            lend(&mut self.means_invvars_t, z.0[1]),
            lend(&mut self.inv_vars_t, z.0[2]),
            lend(&mut self.sigma_inv_m, z.0[3]),
            lend(&mut self.u, z.0[4]),
            lend(&mut self.lda_t, z.0[5]),
            lend(&mut self.lda_offset, z.0[6]),
            lend(&mut self.global_mean_stats, z.0[7]),
            &mut [0.0; 10272],
        )
    }
}

impl Rooms {
    /// A stream of this record and of the fronts of these rooms.
    pub(crate) fn stream<'a>(
        &'a mut self,
        z: &Lengths,
        record: &'a mut IvectorStream,
    ) -> Stream<'a> {
        let Rooms {
            frames,
            rows,
            waiting_frames,
            waiting_weights,
            cmvn_stats,
            linear,
            quadratic,
            current,
            scratch,
            forged_frames: _,
        } = self;
        Stream {
            record,
            frames: lend(frames, z.0[8]),
            rows: lend(rows, z.0[9]),
            waiting_frames: lend(waiting_frames, z.0[10]),
            waiting_weights: lend(waiting_weights, z.0[11]),
            cmvn_stats: lend(cmvn_stats, z.0[12]),
            linear: lend(linear, z.0[13]),
            quadratic: lend(quadratic, z.0[14]),
            current: lend(current, z.0[15]),
            scratch: lend(scratch, z.0[16]),
        }
    }
}

/// A call that gives no vector.
#[derive(Clone, Copy)]
pub(crate) enum RingCall<'a> {
    Push(&'a [f32]),
    Change(&'a [usize], &'a [f32]),
    Finish,
    SetWindow(usize),
    Forget(usize),
}

impl RingCall<'_> {
    /// The answer of the call on a stream.
    pub(crate) fn on(self, stream: &mut Stream<'_>) -> StreamAnswer {
        match self {
            RingCall::Push(frame) => {
                let pushed = stream.push(frame);
                answers::answered(pushed, stream.record)
            }
            RingCall::Change(frames, weights) => {
                let changed = stream.change(frames, weights);
                answers::answered(changed, stream.record)
            }
            RingCall::Finish => {
                let finished = stream.finish();
                answers::answered(finished, stream.record)
            }
            RingCall::SetWindow(window) => {
                let set = stream.set_window(window);
                answers::answered(set, stream.record)
            }
            RingCall::Forget(frame) => {
                let forgotten = stream.forget(frame);
                answers::answered(forgotten, stream.record)
            }
        }
    }
}

/// The answer of a start on a stream.
pub(crate) fn start(
    stream: &mut Stream<'_>,
    info: IvectorInfo,
    tables: LentTables<'_>,
) -> Result<StreamAnswer, Refusal> {
    stream.start(info, tables)?;
    Ok(answers::answered(Ok(()), stream.record))
}

/// The answer of a fetch on a stream.
pub(crate) fn fetch(
    stream: &mut Stream<'_>,
    frame: usize,
    tables: LentTables<'_>,
    out: &mut [u32],
) -> StreamAnswer {
    let fetched = stream.fetch(frame, tables, out);
    answers::fetch_answer(fetched, stream.record)
}
