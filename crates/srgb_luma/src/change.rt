// Rises and falls of luminance between two colours.
ghost use Rattle.std.specs.Prelude.{ℕ, ◌↔◌, IsTrue, ◌+◌, ◌*◌, ◌^◌, ◌<◌, ◌≤◌};
ghost use Rattle.page_model.specs.Light.{IsRise, IsFall};

use crate::luminance::luma;
use page_model::Rgb;

// A tenth of the luminance of white.
const TENTH: u64 = 1000 << 32;

// The luminance from which on a colour is too light for a rise to begin: 0.8 of white's.
const LIGHT: u64 = 8000 << 32;

/// The luminance below which another one rises to this one: none does below 0.
#[inline]
pub fn rises_below(after: u64) -> u64
    requires { after ≤ 10000 * 2 ^ 32 }
    ensures { (before : ℕ) → (before < result) ↔ ((before < 8000 * 2 ^ 32) × (before + 1000 * 2 ^ 32 ≤ after)) }
{
    (after + 1).saturating_sub(TENTH).min(LIGHT)
}

/// The luminance from which on this one rises to another: more than white's where it rises to none.
#[inline]
pub fn rises_from(before: u64) -> u64
    ensures { (after : ℕ) → after ≤ 10000 * 2 ^ 32 → (result ≤ after) ↔ ((before < 8000 * 2 ^ 32) × (before + 1000 * 2 ^ 32 ≤ after)) }
{
    if before < LIGHT {
        before + TENTH
    } else {
        u64::MAX
    }
}

/// Whether the luminance rises from the first colour to the second as in an opposing change of
/// WCAG 2.2's general flash: by a tenth of white's luminance or more, from below 0.8 of it.
#[inline]
pub fn is_rise(from: Rgb, to: Rgb) -> bool
    ensures { IsTrue result ↔ IsRise from to }
{
    let before = luma(from);
    let after = luma(to);
    before < LIGHT && before + TENTH <= after
}

/// Whether the luminance falls from the first colour to the second: a rise read backwards.
#[inline]
pub fn is_fall(from: Rgb, to: Rgb) -> bool
    ensures { IsTrue result ↔ IsFall from to }
{
    is_rise(to, from)
}
