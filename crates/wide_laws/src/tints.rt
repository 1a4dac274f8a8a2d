// Tints and the colours that they hold.
ghost use Rattle.wide_laws.specs.HeldTintLaws.{TintHoldsColour, WideTintHoldsColour};

/// Whatever loose states hold the states of the layers: the tint of a pixel holds its colour. A tint that blends the lower ends alone
/// for the lower end is refused: with more alpha a light backdrop gets darker.
pub fn tint_holds_colour()
    ensures { TintHoldsColour }
{}

/// The tint of the wide kind holds the colour of the pixel in each run of exact states. A box that is surely not shown where it maybe
/// is, is refused.
pub fn wide_tint_holds_colour()
    ensures { WideTintHoldsColour }
{}
