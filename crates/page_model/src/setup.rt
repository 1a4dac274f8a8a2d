// The viewport and the rate that a page is judged at.
ghost use Rattle.std.specs.Prelude.{◌≡◌, ◌*◌, ◌≤◌};
ghost use Rattle.page_model.specs.Time.{window_of};
ghost use Rattle.page_model.specs.Viewing as definition;
ghost use Rattle.page_model.specs.Viewing.{IsRate, setup_of, setup_over_1001};

use std::marker::Model;

/// The greatest width and the greatest height of a viewport, in pixels.
const MAX_SIDE: u16 = 4096;

/// The greatest rate, in frames per second.
const MAX_RATE: u16 = 240;

/// The number of seconds of a rate that isn't whole.
const VIDEO_DEN: u32 = 1001;

/// The greatest number of frames in 1,001 seconds.
const MAX_VIDEO_NUM: u32 = 240_000;

/// Why there is no such setup.
#[derive(Clone, Copy, Debug, PartialEq, Eq)]
pub enum SetupFault {
    /// The width or the height isn't from 1 to 4,096.
    Size,
    /// The size is good, and the rate is out of its range.
    Rate,
}

/// A viewport of 1 to 4,096 pixels each way, and a rate: 1 to 240 frames per second, or 1,001 to 240,000 frames in
/// 1,001 seconds.
#[derive(Clone, Copy, Debug)]
pub struct Setup {
    width: u16,
    height: u16,
    num: u32,
    den: u32,
}

impl Model for Setup {
    ghost use Rattle.page_model.specs.Viewing.{Viewing, IsInRange};

    ghost Value = { Viewing };

    ghost view = { λ s. record { width = s.width; height = s.height; num = s.num; den = s.den } };

    ghost invariant = { λ s. IsInRange s.width s.height s.num s.den };

    ghost inverse = { λ v. record { width = v.width; height = v.height; num = v.num; den = v.den } };
}

/// Whether both are from 1 to 4,096.
fn is_size(width: u16, height: u16) -> bool
    ensures { result ≡ definition.is_size width height }
{
    (1..=MAX_SIDE).contains(&width) && (1..=MAX_SIDE).contains(&height)
}

impl Setup {
    /// The setup of these numbers: width and height in pixels, rate in frames per second. `Size` exactly where the
    /// width or the height isn't from 1 to 4,096, `Rate` exactly where they are and the rate isn't from 1 to 240.
    pub fn new(width: u16, height: u16, rate: u16) -> Result<Setup, SetupFault>
        ensures { result ≡ setup_of width height rate }
    {
        if !is_size(width, height) {
            return Err(SetupFault::Size);
        }
        if rate < 1 || rate > MAX_RATE {
            return Err(SetupFault::Rate);
        }
        Ok(Setup {
            width,
            height,
            num: u32::from(rate),
            den: 1,
        })
    }

    /// The setup at a rate of `num` frames in 1,001 seconds, as video has it: 60000 / 1001. `Size` exactly as in
    /// [`Setup::new`], `Rate` exactly where the size is good and `num` isn't from 1,001 to 240,000.
    pub fn over_1001(width: u16, height: u16, num: u32) -> Result<Setup, SetupFault>
        ensures { result ≡ setup_over_1001 width height num }
    {
        if !is_size(width, height) {
            return Err(SetupFault::Size);
        }
        if num < VIDEO_DEN || num > MAX_VIDEO_NUM {
            return Err(SetupFault::Rate);
        }
        Ok(Setup {
            width,
            height,
            num,
            den: VIDEO_DEN,
        })
    }

    /// The width of the viewport in pixels, from 1 to 4,096.
    pub fn width(&self) -> u16
        ensures value { result ≡ self.now.width }
        ensures some { 1 ≤ self.now.width }
        ensures limit { self.now.width ≤ 4096 }
    {
        self.width
    }

    /// The height of the viewport in pixels, from 1 to 4,096.
    pub fn height(&self) -> u16
        ensures value { result ≡ self.now.height }
        ensures some { 1 ≤ self.now.height }
        ensures limit { self.now.height ≤ 4096 }
    {
        self.height
    }

    /// The number of frames in [`den`](Setup::den) seconds.
    pub fn num(&self) -> u32
        ensures value { result ≡ self.now.num }
        ensures some { 1 ≤ self.now.num }
        ensures limit { self.now.num ≤ 240000 }
        ensures slow { self.now.num ≤ 240 * self.now.den }
        ensures is_rate { IsRate self.now.num self.now.den }
    {
        self.num
    }

    /// The number of seconds that have [`num`](Setup::num) frames: 1 or 1,001.
    pub fn den(&self) -> u32
        ensures value { result ≡ self.now.den }
        ensures some { 1 ≤ self.now.den }
        ensures limit { self.now.den ≤ 1001 }
        ensures is_rate { IsRate self.now.num self.now.den }
    {
        self.den
    }

    /// How many frames a one-second window has after its first, from 1 to 240: the greatest whole number that is at
    /// most the rate.
    pub fn rate(&self) -> u16
        ensures value { result ≡ window_of self.now }
        ensures some { 1 ≤ window_of self.now }
        ensures limit { window_of self.now ≤ 240 }
    {
        (self.num / self.den) as u16
    }
}
