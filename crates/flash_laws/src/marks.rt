// Laws of counting marked pixels.
ghost use Rattle.page_model.specs.Flash.{area};
ghost use Rattle.flash_laws.specs.MarkLaws.{MarksCount};
ghost use Rattle.flash_laws.specs.WrongAreas.{AreaTwiceBreaks};

/// The marked pixels of a viewport are at most its size, more marks count no less, markings that
/// are apart add up, and a rectangle counts its size. A count that takes rows past the viewport,
/// swaps its sides for one of them or counts a column twice would be refused.
pub fn marks_count()
    ensures { MarksCount area }
{}

/// A count of each column twice breaks these laws.
pub fn area_twice_breaks()
    ensures { AreaTwiceBreaks }
{}
