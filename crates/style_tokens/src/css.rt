// The tokens of a style text.
ghost use Rattle.std.specs.Prelude.{◌≡◌, ◌<◌, ◌≤◌, ℕ, length, slice_range};
ghost use Rattle.std.specs.Prelude.{List as Items};
ghost use Rattle.style_tokens.specs.CssTokens.{AreTokens, Gives, IsBadAt, IsScan, Tells};
ghost use Rattle.style_tokens.specs.declared.token.CssToken.{CssToken as Token};

use crate::css_reading::{gap_at, token_at};
use crate::token::CssToken;
use page_model::{List, Place};
use std::alloc::Global;
use text_tokens::ScanFault;

/// The tokens of a part of the file, in order, with their places in the file. The longest token is taken. A fault
/// is told exactly at the first byte where neither a token nor white space nor a comment begins; a comment
/// that isn't closed is told where it begins.
pub fn scan_css(alloc: Global, text: &[u8], part: Place) -> Result<List<CssToken>, ScanFault>
    requires short { length text.now ≤ 1048576 }
    requires in_order { part.from ≤ part.to }
    requires inside { part.to ≤ length text.now }
    // What is given is so spelled, and a fault has its cause.
    ensures scan { IsScan part.to (slice_range text.now part.from part.to) result }
    // What is so spelled is given, unless memory is refused.
    ensures given { (tokens : Items Token) → AreTokens part.to (slice_range text.now part.from part.to) tokens
        → Gives tokens result }
    // A fault that is there is told, unless memory is refused.
    ensures told { (place : ℕ) → IsBadAt part.to (slice_range text.now part.from part.to) place → Tells place result }
{
    let bytes = &text[part.from as usize..part.to as usize];
    tokens_of(alloc, bytes, part.to)
}

/// The tokens of some bytes that reach up to this byte of the file.
fn tokens_of(alloc: Global, bytes: &[u8], end: u32) -> Result<List<CssToken>, ScanFault>
    requires { length bytes.now ≤ end }
    ensures { IsScan end bytes.now result }
{
    let mut tokens = List::new(alloc);
    let mut rest = bytes;
    'scanning: while !rest.is_empty() {
        let from = end - rest.len() as u32;
        if let Some(after) = gap_at(rest) {
            rest = after;
            continue;
        }
        let Some(front) = token_at(rest) else {
            return Err(ScanFault::BadToken { at: from });
        };
        let to = end - front.rest.len() as u32;
        tokens.push(CssToken {
            kind: front.kind,
            place: Place { from, to },
        })?;
        rest = front.rest;
    }
    Ok(tokens)
}
