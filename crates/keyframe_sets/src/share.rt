// A progress, in numbers that products fit.
ghost use Rattle.std.specs.Prelude.{◌<◌, ◌≤◌, ◌^◌};

use fix_span::Frac;

/// `num / den`, from 0 to 1.
#[derive(Clone, Copy)]
pub struct Share {
    pub num: u64,
    pub den: u64,
    pub ghost positive: { 0 < den },
    pub ghost at_most_one: { num ≤ den },
    pub ghost few: { den ≤ 2 ^ 35 },
}

impl Share {
    ghost use Rattle.std.specs.Prelude.{◌≡◌, pos, ◌^◌, ◌≤ℤ◌};
    ghost use Rattle.fix_span.specs.Frac.{fraction_of, IsShare};
    ghost use Rattle.keyframe_sets.specs.Views.{share_as};

    /// The share that a fraction from 0 to 1 is.
    pub fn of(x: Frac) -> Share
        requires share { IsShare x }
        requires denominator { x.den ≤ℤ pos (2 ^ 35) }
        ensures { share_as result ≡ fraction_of x }
    {
        Share {
            num: x.num as u64,
            den: x.den as u64,
        }
    }
}
