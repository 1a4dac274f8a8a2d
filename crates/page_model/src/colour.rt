// Colours of pixels, and colours that are painted.

/// The colour of a pixel: three channels of the sRGB space, each from 0 to 255.
#[derive(Clone, Copy, Debug, PartialEq, Eq)]
pub struct Rgb {
    pub r: u8,
    pub g: u8,
    pub b: u8,
}

/// A colour with which a layer is painted: three channels of the sRGB space, each from 0 to 255, and an alpha in
/// parts of 255,000, from 0 (transparent) to 255,000 (opaque). So both an alpha of two hexadecimal digits and one
/// of three decimals are whole numbers.
#[derive(Clone, Copy, Debug, PartialEq, Eq)]
pub struct Rgba {
    pub r: u8,
    pub g: u8,
    pub b: u8,
    pub a: u32,
}

/// The least and the greatest colour that a pixel may have, channel by channel:
/// each channel of `lo` is at most that of `hi`.
#[derive(Clone, Copy, Debug, PartialEq, Eq)]
pub struct Tint {
    pub lo: Rgb,
    pub hi: Rgb,
}
