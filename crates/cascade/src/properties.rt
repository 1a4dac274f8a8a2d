// The numbers of the longhand properties, by which winning declarations are asked for.
pub const POSITION: usize = 0;

pub const LEFT: usize = 1;

pub const TOP: usize = 2;

pub const WIDTH: usize = 3;

pub const HEIGHT: usize = 4;

pub const COLOUR: usize = 5;

pub const OPACITY: usize = 6;

pub const VISIBILITY: usize = 7;

pub const Z_INDEX: usize = 8;

pub const NAMES: usize = 11;

pub const DURATIONS: usize = 12;

pub const EASINGS: usize = 13;

pub const DELAYS: usize = 14;

pub const COUNTS: usize = 15;

pub const DIRECTIONS: usize = 16;

pub const FILLS: usize = 17;

pub const PAUSED: usize = 18;
