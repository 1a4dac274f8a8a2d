// Where the latest chains of eight changes start.
ghost use Rattle.std.specs.Prelude.{◌≡◌, ◌+◌, ◌*◌, ◌≤◌, length, min, slice_index};
ghost use Rattle.flash_rows.specs.Pushing.{AreSmall, ended_with};
ghost use Rattle.flash_rows.specs.Rows.{byte, ended_in};

use crate::latest::Latest;
use crate::still::later;
use byte_lanes::{bytes_of, word_of};

/// Where the latest chain of eight possible changes starts, and the latest of sure ones, as a frame sees them: so many
/// frames before it, or one more than the window where none starts in it.
#[derive(Clone, Copy)]
pub struct Ended {
    pub possible: u8,
    pub sure: u8,
}

/// Those that ended before the next frame, as it sees them: a row has them behind its bounds.
pub(crate) fn ended_before(row: &[u64], rate: u16) -> Ended
    requires { 9 * (rate + 1) ≤ length row.now }
    ensures { result ≡ ended_in (slice_index row.now (9 * rate + 3)) }
{
    let bytes = bytes_of(row[9 * usize::from(rate) + 3]);
    Ended {
        possible: bytes[0],
        sure: bytes[1],
    }
}

/// A row's word for them, as the frame behind sees them.
pub fn ended_word(ended: Ended, rate: u16) -> u64
    requires limit { rate ≤ 240 }
    ensures possible { byte result 0 ≡ min (ended.possible + 1) (rate + 1) }
    ensures sure { byte result 1 ≡ min (ended.sure + 1) (rate + 1) }
{
    word_of([
        later(ended.possible, rate),
        later(ended.sure, rate),
        0,
        0,
        0,
        0,
        0,
        0,
    ])
}

/// The least of five numbers.
fn least(before: u8, rise: u8, fall: u8, into: u8, out: u8) -> u8
    ensures { result ≡ min (min (min (min before rise) fall) into) out }
{
    before.min(rise).min(fall).min(into).min(out)
}

/// The same with those that end at the next frame.
pub(crate) fn ended_at(before: Ended, latest: &Latest) -> Ended
    requires { AreSmall latest.now }
    ensures { result ≡ ended_with before latest.now }
{
    let Latest { light, red } = *latest;
    Ended {
        possible: least(
            before.possible,
            light.up.last(),
            light.down.last(),
            red.up.last(),
            red.down.last(),
        ),
        sure: least(
            before.sure,
            light.surely_up.last(),
            light.surely_down.last(),
            red.surely_up.last(),
            red.surely_down.last(),
        ),
    }
}
