// Coordinates of a colour in the chromaticity diagram, and changes by them.
use fix_span::Span;

/// The coordinates u' and v' of a colour in the CIE 1976 UCS diagram, each between two ends in parts of 2^40.
#[derive(Clone, Copy, Debug, PartialEq, Eq)]
pub struct Chroma {
    pub u: Span<40>,
    pub v: Span<40>,
}

/// The changes between two tints into and out of saturated red: which are possible, and which are sure.
#[derive(Clone, Copy, Debug, PartialEq, Eq)]
pub struct RedChanges {
    pub into_possible: bool,
    pub out_possible: bool,
    pub into_sure: bool,
    pub out_sure: bool,
}
