// Pages that are decided.
ghost use Rattle.enclosure_laws.specs.ExactPageLaws.{ExactPagesAreDecided, TintsAreSingle};

/// Where all easings in use are `linear` or `steps`, a pixel has one colour in each frame by each kind, also where
/// boxes move. A box that maybe covers a pixel at its own edge is refused.
pub fn tints_are_single()
    ensures { TintsAreSingle }
{}

/// Where besides no saturated colour appears, a window that is possibly bad is surely bad, so none is left open. A
/// possible rise by a lesser margin than a sure one is refused.
pub fn exact_pages_are_decided()
    ensures { ExactPagesAreDecided }
{}
