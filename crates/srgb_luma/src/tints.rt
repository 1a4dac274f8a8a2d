// Possible and sure rises and falls of luminance between two tints.
ghost use Rattle.std.specs.Prelude.{◌↔◌, IsTrue};
ghost use Rattle.page_model.specs.Change.{IsPossibleRise, IsSureRise, IsPossibleFall, IsSureFall};

use crate::change::is_rise;
use page_model::Tint;

/// Whether some colour of the first tint rises to some colour of the second: the least one of the
/// first to the greatest one of the second.
#[inline]
pub fn rise_possible(from: Tint, to: Tint) -> bool
    ensures { IsTrue result ↔ IsPossibleRise from to }
{
    is_rise(from.lo, to.hi)
}

/// Whether each colour of the first tint rises to each colour of the second: the greatest one of
/// the first to the least one of the second.
#[inline]
pub fn rise_sure(from: Tint, to: Tint) -> bool
    ensures { IsTrue result ↔ IsSureRise from to }
{
    is_rise(from.hi, to.lo)
}

/// Whether some colour of the first tint falls to some colour of the second: a possible rise read
/// backwards.
#[inline]
pub fn fall_possible(from: Tint, to: Tint) -> bool
    ensures { IsTrue result ↔ IsPossibleFall from to }
{
    rise_possible(to, from)
}

/// Whether each colour of the first tint falls to each colour of the second: a sure rise read
/// backwards.
#[inline]
pub fn fall_sure(from: Tint, to: Tint) -> bool
    ensures { IsTrue result ↔ IsSureFall from to }
{
    rise_sure(to, from)
}
