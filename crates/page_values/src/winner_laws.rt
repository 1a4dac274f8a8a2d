// Winning declarations exist.
ghost use Rattle.page_values.specs.WinnerLaws.{WinnersExist};

/// Each element has winning declarations, and two that win have one weight. It refuses an order in which three
/// declarations beat one another in turn.
pub fn winners_exist()
    ensures { WinnersExist }
{}
