// A property on its way.
ghost use Rattle.layer_ways.specs.Alpha.{HasAlpha};
ghost use Rattle.slot_values.specs.Ends.{IsEnd};

use fix_span::Frac;
use page_model::Value;

/// From one value to another, with so much of the way made as lies between two ends, which are one where that is a
/// fraction.
#[derive(Clone, Copy)]
pub struct Way {
    pub from: Value,
    pub to: Value,
    pub least: Frac,
    pub greatest: Frac,
    pub ghost first: { HasAlpha from },
    pub ghost second: { HasAlpha to },
    pub ghost least_end: { IsEnd least },
    pub ghost greatest_end: { IsEnd greatest },
}
