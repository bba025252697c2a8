//! Why a call is not taken. The definitions speak of refusals by their numbers, as the C interface
//! does; the code by this enum.

ghost use Rattle.std.specs.Prelude.{◌≡◌, [], ◌∷◌, not};
ghost use Rattle.loops.specs.Refusal.{first_of};
ghost use Rattle.definition.specs.Number.{number_of, refused_by, numbered};

/// Why a call was not taken. A refused call has changed nothing.
#[derive(Clone, Copy, Debug, PartialEq, Eq, Hash)]
pub enum Refusal {
    /// An option is outside its range.
    OptionRange = 1,
    /// The bytes end before an item does.
    CutShort = 2,
    /// The mark, a token or a size byte is wrong.
    BadMark = 3,
    /// A dimension is outside its limits.
    DimensionRange = 4,
    /// Dimensions disagree.
    Disagree = 5,
    /// A number is not finite, or a weight or an inverse variance is not above 0.
    BadNumber = 6,
    /// The CMVN text breaks its form.
    CmvnForm = 7,
    /// A lent room is too short.
    ShortRoom = 8,
    /// The silence settings are outside their limits.
    SilenceSettings = 9,
    /// The record was made by no call, or for rooms of other lengths.
    ForeignRecord = 10,
    /// The frame's length is not the model's base dimension.
    FrameLength = 11,
    /// A number of the frame is not finite.
    FrameNumber = 12,
    /// 1,000,000,000 frames are in.
    LastFrame = 13,
    /// The frame room is full.
    FramesFull = 14,
    /// The row room is full.
    RowsFull = 15,
    /// The change lists differ in length, or are longer than 384.
    ChangeList = 16,
    /// A change names a frame of 1,000,000,000 or more, or its weight is not finite.
    ChangeNumber = 17,
    /// A change names a frame that is no longer kept.
    FrameGone = 18,
    /// There is no room for that many waiting changes.
    WaitingFull = 19,
    /// The output's length is not the i-vector dimension.
    OutputLength = 20,
    /// The frame is not ready.
    NotReady = 21,
    /// The frame is above the highest changed one.
    AboveHighest = 22,
    /// More decoder frames than the silence table has, or a frame number too high.
    DecoderFrames = 23,
    /// The silence lists differ in length, or are too short for the answer.
    SilenceLists = 24,
    /// A settings text is not ASCII, or longer than 65,536 bytes.
    SettingsText = 25,
    /// The output is shorter than the model's files.
    ShortOutput = 26,
    /// No vector is enrolled, or more than 32 are.
    VoiceCount = 27,
    /// A vector's length is not the dimension.
    VectorLength = 28,
    /// A number of a vector or the limit is not finite, or the limit is below 0.
    VectorNumber = 29,
    /// A change names a frame below one that a forget named.
    Forgotten = 30,
    /// The window is outside 1 to 1,000.
    WindowRange = 31,
    /// The window is above the longest, and older rows are gone.
    OldWindow = 32,
    /// A seed or a size outside its limits, a list too short for what is drawn, or input that can't
    /// be read.
    TrySizes = 33,
    /// A list of calls is too short for what it says.
    ListTooShort = 99,
}

impl Refusal {
    /// The number that the C interface gives.
    pub fn number(self) -> usize
        ensures { result ≡ number_of self }
    {
        self as usize
    }
}

/// `Err(e)` unless the test holds.
#[tactic(auto, unfolding(loops::specs::Refusal::first_of))]
pub fn need(holds: bool, e: Refusal) -> Result<(), Refusal>
    ensures { refused_by result ≡ first_of ((not holds, number_of e) ∷ []) }
{
    if holds { Ok(()) } else { Err(e) }
}

/// The number of what was refused, 0 where nothing was.
pub fn number_or_0(r: Result<(), Refusal>) -> usize
    ensures { result ≡ refused_by r }
{
    match r {
        Ok(()) => 0,
        Err(e) => e.number(),
    }
}

/// The same, a refusal by its number.
pub fn numbered<T>(r: Result<T, Refusal>) -> Result<T, usize>
    ensures { result ≡ numbered r }
{
    match r {
        Ok(x) => Ok(x),
        Err(e) => Err(e.number()),
    }
}
