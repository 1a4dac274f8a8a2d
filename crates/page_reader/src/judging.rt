// Whether tokens are a page's, and which.
ghost use Rattle.std.specs.Prelude.{◌≡◌, ◌≤◌, IfOk, map};
ghost use Rattle.page_tokens.specs.HtmlShown.{shown_word};
ghost use Rattle.page_reader.specs.PageReading.{IsJudged};

use crate::elements::element_of;
use crate::stage::{Stage, next_stage};
use crate::symbols::symbol_of;
use page_model::{List, NoMemory, PageText};
use page_tokens::HtmlWord;
use std::alloc::Global;

/// The page of these tokens, which may have any number of boxes, or where the tokens of a text of this length cease to
/// be a page's.
pub(crate) fn judge(
    alloc: Global,
    words: &[HtmlWord<'_>],
    total: u32,
) -> Result<Result<PageText, u32>, NoMemory>
    requires { total ≤ 1048576 }
    ensures { IfOk result (λ found. IsJudged total (map shown_word words.now) found) }
{
    let mut stage = Stage::AtDoctype;
    let mut elements = List::new(alloc);
    'judging: for word in words {
        let symbol = symbol_of(alloc, word)?;
        match next_stage(stage, symbol) {
            Some(next) => stage = next,
            None => return Ok(Err(word.place.from)),
        }
        if let Some(element) = element_of(alloc, total as usize, symbol, word)? {
            elements.push(element)?;
        }
    }
    match stage {
        Stage::AtEnd(sheet) => Ok(Ok(PageText { elements, sheet })),
        _ => Ok(Err(total)),
    }
}
