// A fraction rounded half up.
ghost use Rattle.std.specs.Prelude.{◌≡◌, pos, ◌+◌, ◌/◌, ◌<◌, ◌≤ℤ◌, ◌<ℤ◌, ◌+ℤ◌, if◌then◌else◌};
ghost use Rattle.std.specs.Int.{int_div_euclid, int_rem_euclid};
ghost use Rattle.fix_span.specs.Frac.{CanRound, half_up, whole_part, is_past_half, half_of_unit};

use crate::frac::Frac;

// The fraction divided by the unit, plus one half, rounded down.
//
/// The whole part and the unit's half are added before they are divided, so that no number is greater than it must
/// be: half of an odd unit counts for more where the part that is left of the fraction is a half or more.
pub(crate) fn half_up_of(x: Frac, unit: u32) -> i128
    requires { CanRound x unit }
    ensures { result ≡ half_up x unit }
{
    floor_of(dividend_of(x, unit), unit as i128)
}

/// The whole part, and half of the unit beside it: the floor of its quotient by the unit is the rounded value.
fn dividend_of(x: Frac, unit: u32) -> i128
    requires { CanRound x unit }
    ensures { result ≡ whole_part x +ℤ pos (half_of_unit x unit) }
{
    whole_of(x) + half_of(unit, is_past(x)) as i128
}

/// The whole part of a fraction.
fn whole_of(x: Frac) -> i128
    requires { pos 0 <ℤ x.den }
    ensures { result ≡ whole_part x }
{
    floor_of(x.num, x.den)
}

/// Whether what is left of the fraction beside its whole part is one half or more.
fn is_past(x: Frac) -> bool
    requires { pos 0 <ℤ x.den }
    ensures { result ≡ is_past_half x }
{
    let rest = rest_of(x.num, x.den);
    rest >= x.den - rest
}

/// Half of a unit, rounded down, or up where there is more.
fn half_of(unit: u32, more: bool) -> u32
    ensures { result ≡ (unit + (if more then 1 else 0)) / 2 }
{
    if more { unit / 2 + unit % 2 } else { unit / 2 }
}

/// The floor of a quotient.
pub(crate) fn floor_of(num: i128, den: i128) -> i128
    requires { pos 0 <ℤ den }
    ensures { result ≡ int_div_euclid num den }
{
    num.div_euclid(den)
}

/// What is left of a number beside a whole multiple of another.
pub(crate) fn rest_of(num: i128, den: i128) -> i128
    requires { pos 0 <ℤ den }
    ensures value { result ≡ int_rem_euclid num den }
    ensures least { pos 0 ≤ℤ result }
    ensures most { result <ℤ den }
{
    num.rem_euclid(den)
}
