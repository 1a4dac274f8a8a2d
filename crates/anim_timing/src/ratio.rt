// A number of parts, of which so many make an iteration.
ghost use Rattle.std.specs.Prelude.{◌<◌, ◌≤◌};

use fix_span::Frac;

/// `num / den` of an iteration.
#[derive(Clone, Copy)]
pub struct Ratio {
    pub num: u64,
    pub den: u64,
    pub ghost some: { 0 < den },
    pub ghost few: { den ≤ 24000000000 },
}

impl Ratio {
    ghost use Rattle.std.specs.Prelude.{◌≡◌};
    ghost use Rattle.fix_span.specs.Frac.{frac_of};
    ghost use Rattle.anim_timing.specs.Iterations.{ratio_as};

    /// The same fraction as callers have it.
    pub fn to_frac(self) -> Frac
        ensures { result ≡ frac_of (ratio_as self) }
    {
        Frac {
            num: self.num as i128,
            den: self.den as i128,
        }
    }
}
