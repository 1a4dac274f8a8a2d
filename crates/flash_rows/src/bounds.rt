// Between which bounds the tints of a row lie.
ghost use Rattle.std.specs.Prelude.{◌≡◌, ◌↔◌, ◌+◌, ◌*◌, ◌≤◌, IsTrue, length};
ghost use Rattle.tint_changes.specs.Made.{IsKnown};
ghost use Rattle.flash_rows.specs.Bounds.{IsNearAll, bounds_at, bounds_before, widened};

use tint_changes::{NextTint, light_of};

/// Between which luminances both ends of some tints lie, and a mark that is 0 only where no corner of them is saturated.
#[derive(Clone, Copy)]
pub struct Bounds {
    pub least: u64,
    pub greatest: u64,
    pub mark: u64,
}

/// The bounds of no tints.
const NOWHERE: Bounds = Bounds {
    least: u64::MAX,
    greatest: 0,
    mark: 0,
};

/// The bounds in a row, which stand behind the words of its frames.
pub(crate) fn bounds_in(row: &[u64], rate: u16) -> Bounds
    requires { 9 * (rate + 1) ≤ length row.now }
    ensures { result ≡ bounds_at rate row.now }
{
    let place = 9 * usize::from(rate);
    Bounds {
        least: row[place],
        greatest: row[place + 1],
        mark: row[place + 2],
    }
}

/// The bounds of the tints before the next one: of none at first.
pub(crate) fn bounds_of(row: &[u64], rate: u16, turn: u32) -> Bounds
    requires { 9 * (rate + 1) ≤ length row.now }
    ensures { result ≡ bounds_before rate row.now turn }
{
    if turn == 0 {
        return NOWHERE;
    }
    bounds_in(row, rate)
}

/// Whether no tint within bounds makes a change with the next one, for its light, and no corner of any is saturated.
pub(crate) fn is_near_all(bounds: Bounds, next: &NextTint) -> bool
    ensures { IsTrue result ↔ IsNearAll bounds next.now }
{
    next.rise_below <= bounds.least
        && next.sure_rise_below <= bounds.least
        && bounds.greatest < next.fall_from
        && bounds.greatest < next.sure_fall_from
        && bounds.mark == 0
        && !next.is_red
}

/// The bounds with one tint more.
pub(crate) fn bounds_with(bounds: Bounds, next: &NextTint) -> Bounds
    requires { IsKnown next.now }
    ensures { result ≡ widened bounds next.now }
{
    let light = light_of(next.tint);
    Bounds {
        least: bounds.least.min(light.least.min(light.greatest)),
        greatest: bounds.greatest.max(light.least.max(light.greatest)),
        mark: if next.is_red { 1 } else { bounds.mark },
    }
}
