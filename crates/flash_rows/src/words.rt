// The first word of a frame.
ghost use Rattle.std.specs.Prelude.{◌≡◌};
ghost use Rattle.flash_rows.specs.Rows.{byte, tint_in};

use byte_lanes::{bytes_of, word_of};
use page_model::{Rgb, Tint};

/// The tint in a frame's first word.
pub(crate) fn tint_of(word: u64) -> Tint
    ensures { result ≡ tint_in word }
{
    let bytes = bytes_of(word);
    Tint {
        lo: Rgb {
            r: bytes[0],
            g: bytes[1],
            b: bytes[2],
        },
        hi: Rgb {
            r: bytes[3],
            g: bytes[4],
            b: bytes[5],
        },
    }
}

/// A frame's first word: its tint, and of how many frames up to this one, which follow one another, it is the tint.
pub(crate) fn first_word(tint: Tint, run: u8) -> u64
    ensures tint { tint_in result ≡ tint }
    ensures run { byte result 6 ≡ run }
{
    let Tint { lo, hi } = tint;
    word_of([lo.r, lo.g, lo.b, hi.r, hi.g, hi.b, run, 0])
}
