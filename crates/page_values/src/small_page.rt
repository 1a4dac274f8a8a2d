// The scene of a small page.
ghost use Rattle.page_values.specs.PageValues.{PageValues};

/// A page of a body and a box has the scene that it should have, and is refused where the box lacks its height. It
/// refuses a definition by which no page has a scene, or by which each has one.
pub fn page_has_scene()
    ensures { PageValues }
{}
