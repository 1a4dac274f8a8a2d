// What is known of an eased value.
use fix_span::{Frac, Span};

/// What is known of an eased value.
#[derive(Clone, Copy, Debug, PartialEq, Eq)]
pub enum Eased {
    /// It is this fraction.
    Exact(Frac),
    /// It lies between these ends, in parts of 2^30.
    Within(Span<30>),
}
