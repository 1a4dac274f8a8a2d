// Chains of changes, at a worked example.
ghost use Rattle.page_values.specs.ChainValues.{SeventeenGreys};

/// Seventeen greys flash although no two neighbours change by a tenth. It refuses a definition that compares
/// neighbouring frames alone, and one whose window is a frame short.
pub fn seventeen_greys()
    ensures { SeventeenGreys }
{}
