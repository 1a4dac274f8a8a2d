// Times that may have no end.
ghost use Rattle.std.specs.Prelude.{◌≡◌, ◌+ℤ◌, FitsSigned};
ghost use Rattle.std.specs.Int.{w64};
ghost use Rattle.page_model.specs.Progress as definition;
ghost use Rattle.anim_timing.specs.Views.{extent_as, CanBeLater};

/// A time in units of 1/(1000 num) ms, or none because there is no end.
#[derive(Clone, Copy)]
pub enum Extent {
    Finite(i64),
    Endless,
}

/// A time so much later.
pub fn later_by(from: i64, length: Extent) -> Extent
    requires { CanBeLater from (extent_as length) }
    ensures { extent_as result ≡ definition.later_by from (extent_as length) }
{
    match length {
        Extent::Finite(length) => Extent::Finite(from + length),
        Extent::Endless => Extent::Endless,
    }
}

/// The lesser of a time and an extent.
pub fn lesser(time: i64, other: Extent) -> i64
    ensures { result ≡ definition.lesser time (extent_as other) }
{
    match other {
        Extent::Finite(other) => time.min(other),
        Extent::Endless => time,
    }
}

/// The lesser of two extents.
pub fn lesser_extent(first: Extent, other: Extent) -> Extent
    ensures { extent_as result ≡ definition.lesser_extent (extent_as first) (extent_as other) }
{
    match first {
        Extent::Finite(time) => Extent::Finite(lesser(time, other)),
        Extent::Endless => other,
    }
}

/// The time, or 0 where it is earlier.
pub fn not_before_zero(extent: Extent) -> Extent
    ensures { extent_as result ≡ definition.not_before_zero (extent_as extent) }
{
    match extent {
        Extent::Finite(time) => Extent::Finite(time.max(0)),
        Extent::Endless => Extent::Endless,
    }
}

/// Whether a moment is at a time or past it.
pub fn has_come(moment: i64, extent: Extent) -> bool
    ensures { result ≡ definition.has_come moment (extent_as extent) }
{
    match extent {
        Extent::Finite(time) => time <= moment,
        Extent::Endless => false,
    }
}
