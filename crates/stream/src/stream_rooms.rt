//! A stream: its record and its rooms.

ghost use Rattle.std.specs.Prelude.{◌≡◌};
ghost use Rattle.stream.specs.Stream.{lengths_of};

use definition::{EstimateLengths, IvectorStream, RingLengths, RoomLengths};

/// A stream: the record that its calls keep, and the rooms that they work in. Who calls holds both
/// and lends them; each call states what it leaves, and nothing is kept elsewhere.
///
/// The calls are methods: `start` makes a fresh stream of the rooms, then come `push`, `finish`,
/// `change`, `forget`, `set_window` and `fetch`. A call that refuses leaves everything as it was.
/// Each refuses with `ForeignRecord` a record that no call made, and rooms of other lengths than it
/// states.
#[derive(Drop)]
pub struct Stream<'a> {
    /// What the stream is at: the model's numbers, the rooms' lengths, how far its calls have come.
    pub record: &'a mut IvectorStream,
    /// A ring of frames, `base_dim` numbers each: frame t has place t mod F, F being how many it
    /// has room for.
    pub frames: &'a mut [f32],
    /// A ring of prefix rows, `base_dim` numbers each: row t is the sum of the frames before t.
    pub rows: &'a mut [f64],
    /// The frames of the waiting changes, ascending, in the first `record.waiting` places.
    pub waiting_frames: &'a mut [usize],
    /// Beside each of those frames by how much its weight changes.
    pub waiting_weights: &'a mut [f32],
    /// The CMVN state: `base_dim` sums and their count.
    pub cmvn_stats: &'a mut [f64],
    /// The statistics' linear term, `ivector_dim` numbers.
    pub linear: &'a mut [f64],
    /// Their quadratic term, a packed triangle of `ivector_dim` rows.
    pub quadratic: &'a mut [f64],
    /// The current vector, `ivector_dim` numbers, with the prior in element 0.
    pub current: &'a mut [f64],
    /// Holds nothing between calls.
    pub scratch: &'a mut [f64],
}

/// What a fetch tells beside its vector.
#[derive(Clone, Copy, Debug, Default, PartialEq, Eq)]
pub struct Fetched {
    /// How many numbers of the vector are not finite.
    pub not_finite: usize,
    /// How many likelihoods of the frames that it brought in were NaN.
    pub nan_likelihoods: usize,
}

impl Stream<'_> {
    /// How many numbers each room has.
    pub fn lengths(&self) -> RoomLengths
        ensures { result ≡ lengths_of self.now }
    {
        RoomLengths {
            rings: RingLengths {
                frames: self.frames.len(),
                rows: self.rows.len(),
                waiting_frames: self.waiting_frames.len(),
                waiting_weights: self.waiting_weights.len(),
            },
            estimate: EstimateLengths {
                cmvn_stats: self.cmvn_stats.len(),
                linear: self.linear.len(),
                quadratic: self.quadratic.len(),
                current: self.current.len(),
                scratch: self.scratch.len(),
            },
        }
    }
}
