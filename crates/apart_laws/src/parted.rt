// What the separate judgement is worth.
ghost use Rattle.apart_laws.specs.PartedPages.{OneParting, PartedPagesAreSafe};

/// Where the separate judgement holds of a valid scene, no window is surely or possibly bad, and the scene is safe for
/// ever. It refuses frames of a cell that count the layers which meet it one by one and not together, and a cell that
/// leaves out a layer which is hidden there in its first frame alone.
pub fn parted_pages_are_safe()
    ensures { PartedPagesAreSafe }
{}

/// The separate judgement gives one number of frames, and doesn't hold where it is denied. It refuses edges or cells
/// that depend on which states are taken.
pub fn one_parting()
    ensures { OneParting }
{}
