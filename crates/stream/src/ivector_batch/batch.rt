//! The batch of a fetch, with what its frames are viewed and scored by.

ghost use Rattle.std.specs.Prelude.{◌≡◌, ◌<◌, length};
ghost use Rattle.loops.specs.Ring.{rows_in};
ghost use Rattle.definition.specs.Lent.{tables_in};
ghost use Rattle.stream.specs.Inner.IvectorBatch.{Ready, Held, HeldWhereTaken, batch_in};

use crate::ivector_batch::Intake;
use definition::{IvectorInfo, LentFrames, LentTables};

/// The batch of a fetch: the model, the rings, and what it brings in. The tables are cut to the
/// lengths that the model's record states.
#[derive(Clone, Copy)]
pub struct FetchBatch<'a> {
    pub info: IvectorInfo,
    pub tables: LentTables<'a>,
    pub held: LentFrames<'a>,
    pub intake: Intake<'a>,
    pub ghost ready: { Ready info (tables_in tables) },
    pub ghost rooms: { (0 < rows_in (length held.frames.now) info.dims.base_dim)
        × (0 < rows_in (length held.rows.now) info.dims.base_dim) },
    pub ghost brought: { Held info.opts intake },
}

/// A batch that is asked for less: its frames are there as far as it takes them. After a change call
/// nothing is asked of `next` and `end`.
#[derive(Clone, Copy)]
pub struct TakenBatch<'a> {
    pub info: IvectorInfo,
    pub tables: LentTables<'a>,
    pub held: LentFrames<'a>,
    pub intake: Intake<'a>,
    pub ghost ready: { Ready info (tables_in tables) },
    pub ghost rooms: { (0 < rows_in (length held.frames.now) info.dims.base_dim)
        × (0 < rows_in (length held.rows.now) info.dims.base_dim) },
    pub ghost brought: { HeldWhereTaken info.opts intake },
}

impl<'a> TakenBatch<'a> {
    /// The same batch as that of a fetch.
    pub fn fetched(&self) -> FetchBatch<'a>
        ensures info { result.info ≡ self.now.info }
        ensures tables { result.tables ≡ self.now.tables }
        ensures held { result.held ≡ self.now.held }
        ensures accepted { result.intake.accepted ≡ self.now.intake.accepted }
        ensures batch { batch_in result.info.opts result.intake
            ≡ batch_in self.now.info.opts self.now.intake }
    {
        let intake = self.intake.taken();
        FetchBatch {
            info: self.info,
            tables: self.tables,
            held: self.held,
            intake,
        }
    }
}
