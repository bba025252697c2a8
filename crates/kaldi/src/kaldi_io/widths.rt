//! The two widths that a file may write its numbers at.

ghost use Rattle.std.specs.Prelude.{◌≡◌, ◌≤◌};
ghost use Rattle.floats.specs.Real.{byte_width};
ghost use Rattle.kaldi.specs.Widths.{format_of};

/// The width of a block's numbers: f32, or f64.
#[derive(Clone, Copy, Debug, PartialEq, Eq, Hash)]
pub enum Width {
    Single,
    Double,
}

impl Width {
    /// Bytes of a number.
    pub fn bytes(self) -> usize
        ensures value { result ≡ byte_width (format_of self) }
        ensures few { result ≤ 8 }
    {
        match self {
            Width::Single => 4,
            Width::Double => 8,
        }
    }
}
