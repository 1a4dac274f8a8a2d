// That there are states to cut by.
ghost use Rattle.cell_laws.specs.CellLaws.{RunsExistBelow};

/// It can't be that a scene has no states by a kind, of all its layers, in the frames below a number. So what can't
/// fail to be so may be shown with such states at hand. It refuses a definition of states that some layer can't meet.
pub fn runs_exist_below()
    ensures { RunsExistBelow }
{}
