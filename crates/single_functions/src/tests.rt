//! Single functions that no script calls: what `Real` gives a width that writes only what it must,
//! and the frames that a batch names.

ghost use Rattle.std.proofs.Common.{rules};
ghost use Rattle.std.specs.Int.{w32};
ghost use Rattle.std.specs.Float.{binary32};

use definition::LentWaiting;
use floats::Real;
use std::ops::{Div, Mul, Neg};
use stream::ivector_batch::Intake;

#[derive(Clone, Copy, PartialEq, PartialOrd)]
struct Single(f32);

impl Neg for Single {
    type Output = Single;

    fn neg(self) -> Single {
        Single(-self.0)
    }
}

impl Mul for Single {
    type Output = Single;

    fn mul(self, other: Single) -> Single {
        Single(self.0 * other.0)
    }
}

impl Div for Single {
    type Output = Single;

    fn div(self, other: Single) -> Single {
        Single(self.0 / other.0)
    }
}

impl Real for Single {
    ghost format = { binary32 };

    ghost word = { w32 };

    ghost float = { λ x. x.0 };

    const BYTES: usize = 4;

    ghost BYTES = { 4 };

    const MARK: u8 = b'F';

    ghost MARK = { 70 };

    ghost bytes = { Prim.search rules };

    ghost word_bytes = { Prim.search rules };

    ghost mark = { Prim.search rules };

    fn read(s: &[u8]) -> Single {
        Single(<f32 as Real>::read(s))
    }

    fn to_pattern(self) -> u64 {
        self.0.to_pattern()
    }

    fn write(self, out: &mut [u8]) {
        self.0.write(out)
    }

    fn widen(self) -> f64 {
        self.0.widen()
    }

    fn is_finite(self) -> bool {
        Real::is_finite(self.0)
    }

    fn is_above_zero(self) -> bool {
        self.0.is_above_zero()
    }
}

// The pattern of a finite number, by the trait alone.
fn pattern<W: Real>(x: W) -> Option<u64> {
    if !x.is_finite() {
        return None;
    }
    Some(x.finite_pattern())
}

#[test]
fn a_width_is_given_the_pattern_of_its_finite_numbers(rt: HostRuntime) {
    for (x, bits) in [
        (1.5f32, Some(0x3fc0_0000u64)),
        (-0.0, Some(0x8000_0000)),
        (1e-45, Some(1)),
        (f32::MAX, Some(0x7f7f_ffff)),
        (f32::INFINITY, None),
        (f32::NAN, None),
    ] {
        assert_eq!(rt; pattern(Single(x)), bits);
        assert_eq!(rt; pattern(x), bits);
    }
}

#[test]
fn a_batch_that_takes_no_frame_names_none(rt: HostRuntime) {
    let waiting = LentWaiting {
        frames: &[],
        weights: &[],
    };
    for (called, next, end, named) in [
        (true, 2, 1, (0, 0)),
        (true, 3, 7, (0, 0)),
        (false, 5, 5, (0, 0)),
        (false, 3, 7, (3, 7)),
    ] {
        let intake = Intake {
            accepted: 0,
            called,
            next,
            end,
            changes: 0,
            waiting,
        };
        let taken = intake.taken();
        assert_eq!(rt; (taken.next, taken.end), named);
    }
}
