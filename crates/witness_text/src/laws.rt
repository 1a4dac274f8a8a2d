// What holds of every text of a witness.
ghost use Rattle.std.specs.Prelude.{◌≡◌, [], ◌∷◌, ◌++◌, ℕ, List, IfOk, IfErr};
ghost use Rattle.page_model.specs.declared.witness.Witness.{Witness as SpecWitness};
ghost use Rattle.witness_text.specs.WitnessForm.{IsInForm, IsTextOf};

use crate::fault::TextFault;
use crate::reading::from_text;
use crate::text::to_text;
use page_model::{NoMemory, Witness};
use std::alloc::Global;

/// Bytes are the text of one witness at most.
#[tactic(auto, using(crate::proofs::ReadLemmas::one_witness))]
pub fn one_witness_reading()
    ensures { (bytes : List ℕ) (first second : SpecWitness) → IsTextOf bytes first → IsTextOf bytes second → first ≡ second }
{}

/// The text of a witness in form gives the witness back, unless memory is refused.
#[tactic(auto, using(crate::proofs::ReadLemmas::own_text, crate::proofs::ReadLemmas::one_witness))]
pub fn read_again(alloc: Global, witness: &Witness) -> Result<Witness, TextFault>
    requires { IsInForm witness.now }
    ensures same { IfOk result (λ w. w ≡ witness.now) }
    ensures memory { IfErr result (λ e. e ≡ TextFault.NoMemory) }
{
    let text = to_text(alloc, witness)?;
    from_text(alloc, text.as_slice())
}

/// With a newline after it that text gives the witness back too.
#[tactic(auto, using(crate::proofs::ReadLemmas::own_line, crate::proofs::ReadLemmas::one_witness))]
pub fn read_line_again(alloc: Global, witness: &Witness) -> Result<Witness, TextFault>
    requires { IsInForm witness.now }
    ensures same { IfOk result (λ w. w ≡ witness.now) }
    ensures memory { IfErr result (λ e. e ≡ TextFault.NoMemory) }
{
    let line = with_newline(to_text(alloc, witness)?)?;
    from_text(alloc, line.as_slice())
}

/// A text with a newline after it.
fn with_newline(text: Vec<u8>) -> Result<Vec<u8>, NoMemory>
    ensures { IfOk result (λ line. line.items ≡ text.items ++ 10 ∷ []) }
{
    let mut line = text;
    line.push(b'\n')?;
    Ok(line)
}
