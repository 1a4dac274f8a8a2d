// Luminance and its thresholds, as another implementation gives them.
ghost use Rattle.page_values.specs.LightValues.{LumaValues, RiseThresholds};

/// Luminance of seven colours. It refuses a curve that is rounded to the nearest, and weights in another order.
pub fn luma_values()
    ensures { LumaValues }
{}

/// Rises and falls at both thresholds. It refuses a definition that asks for the darker colour's luminance to be
/// below 0.8 only in a fall, and one that compares luminances before the curve.
pub fn rise_thresholds()
    ensures { RiseThresholds }
{}
