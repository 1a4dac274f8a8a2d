// What a scene comes to.
ghost use Rattle.std.specs.Prelude.{◌≡◌, IfOk};
ghost use Rattle.page_model.specs.ValidScene.{IsValid};
ghost use Rattle.page_judge.specs.Clear.{ClearScenesAreDecided, WorkIsTooMuchWidely};
ghost use Rattle.page_judge.specs.Judgement.{IsFail, IsJudgement, OneJudgement, judgement_for};
ghost use Rattle.sweep.specs.Verdicts as verdict;
ghost use Rattle.sweep.specs.Verdicts.{IsReady, IsReadyWhole};

use crate::types::Judgement;
use page_model::{BadWindow, NoMemory, Scene, Setup, Witness};
use std::alloc::Global;
use sweep::{OpenFault, Reason, Sweep, Verdict};
use witness_make::make;

/// The witness of the window in which a sweep failed its scene.
///
/// # Errors
///
/// `NoMemory` where memory is refused.
fn witness_of(alloc: Global, sweep: &Sweep, bad: BadWindow) -> Result<Witness, NoMemory>
    requires ready { IsReady sweep.now }
    requires whole { IsReadyWhole sweep.now }
    requires failed { verdict.IsFail sweep.now.scene sweep.now.setup sweep.now.needed bad.start bad.x bad.y }
    ensures { IfOk result (IsFail sweep.now.scene sweep.now.setup) }
{
    make(alloc, sweep.scene(), sweep.setup(), sweep.cuts(), bad)
}

/// The judgement that a reason gives.
fn undecided(reason: Reason) -> Judgement
    ensures { result ≡ judgement_for reason }
{
    match reason {
        Reason::Frames => Judgement::Frames,
        Reason::Work { cells, frames } => Judgement::Work { cells, frames },
        Reason::Enclosure { start, x, y } => Judgement::Enclosure { start, x, y },
    }
}

/// What the scene of a sweep comes to.
///
/// # Errors
///
/// `NoMemory` where memory is refused.
fn judgement_of(alloc: Global, mut sweep: Sweep) -> Result<Judgement, NoMemory>
    requires { IsReady sweep }
    ensures { IfOk result (IsJudgement sweep.scene sweep.setup) }
{
    match sweep.run() {
        Verdict::Pass { frames, apart } => Ok(Judgement::Pass { frames, apart }),
        Verdict::Fail(bad) => Ok(Judgement::Fail(witness_of(alloc, &sweep, bad)?)),
        Verdict::Undecided(reason) => Ok(undecided(reason)),
    }
}

/// What a scene comes to at a setup: `Frames` and `Work` where there is too much to look at, and else what its windows tell, with a
/// witness where one is bad.
///
/// # Errors
///
/// `NoMemory` where memory is refused.
pub fn judge(alloc: Global, scene: Scene, setup: Setup) -> Result<Judgement, NoMemory>
    requires { IsValid scene }
    ensures { IfOk result (λ judgement. IsJudgement scene setup judgement) }
{
    match Sweep::open(alloc, scene, setup) {
        Ok(sweep) => judgement_of(alloc, sweep),
        Err(OpenFault::Frames) => Ok(Judgement::Frames),
        Err(OpenFault::Work { cells, frames }) => Ok(Judgement::Work { cells, frames }),
        Err(OpenFault::NoMemory) => Err(NoMemory),
    }
}

/// The answers exclude each other: a scene comes to one of them at a setup, with the same numbers, window, position and area. And they
/// do so for ever: a window that is bad or possibly bad, wherever it starts, excludes a pass, and one that is surely bad excludes an
/// enclosure too. Causes that leave both a pass and an enclosure open, or any bad window for the first, or that speak of some windows
/// alone, would be refused.
pub fn one_judgement()
    ensures { OneJudgement }
{}

/// Within the counted bounds a scene passes or fails where no window is possibly bad by the wide kind, or some window is surely bad by
/// it; and so it does where all easings are `linear` or `steps` and no saturated colour appears. Too many cells in the frames are too
/// many by the wide kind. Causes that let such a scene be left open, or count cells that the wide kind doesn't, would be refused.
pub fn clear_scenes_are_decided()
    ensures decided { ClearScenesAreDecided }
    ensures work { WorkIsTooMuchWidely }
{}
