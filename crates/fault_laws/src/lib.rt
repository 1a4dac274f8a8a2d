//! Laws of faults: one is told only where the source or the sink counted it, and none where neither end ever fails.
//!
//! Nobody calls this crate but tests. It stands beside the clause of `run`, and says in few words what that clause means for the
//! statuses 5 and 6. [`run_surely`] is `run` between two ends that never fail: so it is a call that ends with neither status.
#![tactic(auto)]

ghost use Rattle.std.specs.Prelude.{◌≡◌, Some, map, string_bytes};
ghost use Rattle.flash_top.specs.Outcomes.{IsOutcome};
ghost use Rattle.flash_top.specs.Texts.{status_of};
ghost use Rattle.flash_top.specs.declared.outcome.Outcome.{Outcome as Found};
ghost use Rattle.flash_top.specs.declared.status.Status.TheVariants.{ReadFault, WriteFault};
ghost use Rattle.fault_laws.specs.Told.{ReadFaultsAreCounted, WriteFaultsAreCounted};

use flash_top::{Status, run};
use io_edge::{SureSink, SureSource};
use std::alloc::Global;

/// Status 5 comes only where the source's count of faults rose in the run, and status 6 only where the sink's did.
pub fn faults_are_counted()
    ensures read { ReadFaultsAreCounted }
    ensures write { WriteFaultsAreCounted }
{}

/// Does what the words ask for between ends that never fail, so that neither fault ever comes: the status is that of an outcome
/// whose cause holds.
pub fn run_surely(
    alloc: Global,
    words: &[String],
    source: &mut SureSource,
    sink: &mut SureSink,
) -> Status
    ensures outcome { (outcome : Found)
        × IsOutcome (map string_bytes words.now) (Some source.old.files) 0 0 outcome
        × (result ≡ status_of outcome) }
    ensures read { result ≡ ReadFault → ⊥ }
    ensures write { result ≡ WriteFault → ⊥ }
{
    run(alloc, words, source, sink)
}
