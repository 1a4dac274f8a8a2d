// What is seen of scenes whose alphas are full.
ghost use Rattle.full_alpha_laws.specs.PaintingLaws.{ColoursAreFormer, TintsAreFormer};

/// By each run of exact states each pixel has the colour of the former text. A body that is painted by its opacity, or a combined alpha
/// that rounds a full cover away, is refused.
pub fn colours_are_former()
    ensures { ColoursAreFormer }
{}

/// By each run of loose states of a kind each pixel has the tint of the former text. A body that is painted over something else than
/// white at both ends is refused.
pub fn tints_are_former()
    ensures { TintsAreFormer }
{}
