// Eight small numbers side by side, in lanes of 16 bits.
ghost use Rattle.std.specs.Prelude.{ℕ, ◌≡◌, ◌+◌, ◌<◌, min, slice_index};
ghost use Rattle.byte_lanes.specs.Lanes.{AreBelow, AreLanesBelow, IsLesser, in_turn, lanes_of, numbers_of};
ghost use Rattle.byte_lanes.specs.Bytes.{byte, number_of};

/// Eight numbers, for one change up to eight: those at even places and those at odd ones, four lanes each.
#[derive(Clone, Copy)]
pub struct Numbers {
    pub even: u64,
    pub odd: u64,
}

/// One in each lane.
const ONES: u64 = 0x0001_0001_0001_0001;

/// The lower half of each lane.
const BYTES: u64 = 0x00FF_00FF_00FF_00FF;

/// The highest bit of each lane.
const HIGHEST: u64 = 0x8000_8000_8000_8000;

/// The lesser of each two lanes. Where a lane isn't the lesser, its highest bit stays when the other is taken away, and
/// what is left beside that bit is too much.
#[inline]
fn lesser(a: u64, b: u64) -> u64
    requires first { AreLanesBelow 32768 a }
    requires second { AreLanesBelow 32768 b }
    ensures { IsLesser a b result }
{
    let over = a + HIGHEST - b;
    let more = over & HIGHEST;
    a - (over & (more - (more >> 15)))
}

/// The bytes of two words of lanes in turn.
#[inline]
fn woven(even: u64, odd: u64) -> u64
    requires first { AreLanesBelow 256 even }
    requires second { AreLanesBelow 256 odd }
    ensures { (n : ℕ) → n < 8 → byte result n ≡ slice_index (in_turn (lanes_of even) (lanes_of odd)) n }
{
    even + (odd << 8)
}

/// The last lane.
#[inline]
fn last_lane(word: u64) -> u8
    requires { AreLanesBelow 256 word }
    ensures { result ≡ slice_index (lanes_of word) 3 }
{
    (word >> 48) as u8
}

impl Numbers {
    /// The same number eight times.
    pub fn all(number: u8) -> Numbers
        ensures { (n : ℕ) → n < 8 → slice_index (numbers_of result) n ≡ number }
    {
        let lanes = number as u64 * ONES;
        Numbers {
            even: lanes,
            odd: lanes,
        }
    }

    /// The numbers of a word for no change and up to seven, each greater by an age.
    #[inline]
    pub fn raised(word: u64, age: u8) -> Numbers
        ensures value { (n : ℕ) → n < 8 → slice_index (numbers_of result) n ≡ number_of word n + age }
        ensures small { AreBelow 32768 result }
    {
        let more = age as u64 * ONES;
        Numbers {
            even: (word << 8 & BYTES) + more,
            odd: (word & BYTES) + more,
        }
    }

    /// The lesser of each two.
    #[inline]
    pub fn least(self, other: Numbers) -> Numbers
        requires first { AreBelow 32768 self }
        requires second { AreBelow 32768 other }
        ensures { (n : ℕ) → n < 8 → slice_index (numbers_of result) n ≡ min (slice_index (numbers_of self) n) (slice_index (numbers_of other) n) }
    {
        Numbers {
            even: lesser(self.even, other.even),
            odd: lesser(self.odd, other.odd),
        }
    }

    /// The word of these numbers.
    pub fn word(self) -> u64
        requires { AreBelow 256 self }
        ensures { (n : ℕ) → n < 8 → byte result n ≡ slice_index (numbers_of self) n }
    {
        woven(self.even, self.odd)
    }

    /// The last of them.
    pub fn last(self) -> u8
        requires { AreBelow 256 self }
        ensures { result ≡ slice_index (numbers_of self) 7 }
    {
        last_lane(self.odd)
    }
}
