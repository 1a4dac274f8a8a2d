// How it is told what the page of a number comes to.
ghost use Rattle.std.specs.Prelude.{◌≡◌, IfOk, string_bytes};
ghost use Rattle.flash_top.specs.Texts.{demo_lines, fail_line, summary_line};

use crate::telling::{pass_line, window_line, work_line};
use page_judge::Judgement;
use page_model::{NoMemory, Witness};
use std::alloc::Global;

/// The two lines of the page of a number: its boxes, and what it comes to.
pub(crate) fn demo_lines(
    alloc: Global,
    number: u32,
    judgement: &Judgement,
) -> Result<String, NoMemory>
    ensures { IfOk result (λ text. string_bytes text ≡ demo_lines number judgement.now) }
{
    let summary = summary_line(alloc, judgement)?;
    Ok(format!(in alloc; "demo {number}: boxes 64\n{summary}")?)
}

/// The line that sums up a judgement.
fn summary_line(alloc: Global, judgement: &Judgement) -> Result<String, NoMemory>
    ensures { IfOk result (λ text. string_bytes text ≡ summary_line judgement.now) }
{
    match judgement {
        Judgement::Pass { frames, apart } => pass_line(alloc, *frames, *apart),
        Judgement::Fail(witness) => fail_line(alloc, witness),
        Judgement::Frames => Ok(String::from_str(alloc, "undecided: more than 100000 frames")?),
        Judgement::Work { cells, frames } => work_line(alloc, *cells, *frames),
        Judgement::Enclosure { start, x, y } => window_line(alloc, *start, *x, *y),
    }
}

/// The line of a window that is bad: where its witness says it is, and its area.
fn fail_line(alloc: Global, witness: &Witness) -> Result<String, NoMemory>
    ensures { IfOk result (λ text. string_bytes text ≡ fail_line witness.now) }
{
    let start = witness.start;
    let x = witness.x;
    let y = witness.y;
    let area = witness.area;
    Ok(format!(in alloc; "fail: start {start}, rectangle {x} {y}, area {area}")?)
}
