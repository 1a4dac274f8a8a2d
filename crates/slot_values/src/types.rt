// What a slot is, and what of a colour goes into one.

/// A slot for whole values: how many parts make a unit, and the range of the whole values.
#[derive(Clone, Copy)]
pub struct Slot {
    pub unit: u32,
    pub least: i32,
    pub greatest: i32,
}

/// The cover of a colour, from the parts of its alpha.
pub const COVER: Slot = Slot {
    unit: 1000,
    least: 0,
    greatest: 255,
};

/// The alpha of an opacity, from 255 times its thousandths.
pub const ALPHA: Slot = Slot {
    unit: 1000,
    least: 0,
    greatest: 255,
};

/// Where a box begins in whole pixels, from hundredths.
pub const POSITION: Slot = Slot {
    unit: 100,
    least: -8192,
    greatest: 8192,
};

/// How far it reaches in whole pixels, from hundredths.
pub const EXTENT: Slot = Slot {
    unit: 100,
    least: 0,
    greatest: 8192,
};

/// A channel of a colour, and the colour's alpha in parts of 255,000.
#[derive(Clone, Copy)]
pub struct Shade {
    pub level: u8,
    pub alpha: u32,
}
