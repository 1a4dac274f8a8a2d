// A text as its tokens.
ghost use Rattle.std.specs.Prelude.{◌≡◌, ◌≤◌, ◌-◌, [], ◌++◌, IfOk, IfErr, OnOk, length, map};
ghost use Rattle.std.specs.Bool.{MatchBool};
ghost use Rattle.page_tokens.specs.declared.html_stand.Stand.TheVariants.{Anything};
ghost use Rattle.page_tokens.specs.HtmlPieces.{after_piece};
ghost use Rattle.page_tokens.specs.HtmlShown.{shown_piece, shown_word};
ghost use Rattle.page_tokens.specs.HtmlText.{AreTokensOf, AreWordsOf, IsScanFault, with_token};

use crate::html_pieces::{Piece, after_token, first_piece};
use crate::html_stand::Stand;
use crate::html_tags::HtmlContent;
use crate::token::HtmlToken;
use page_model::{List, NoMemory, Place};
use std::alloc::Global;
use text_tokens::ScanFault;

/// A token of a page with its content.
#[derive(Drop)]
pub struct HtmlWord<'a> {
    pub content: HtmlContent<'a>,
    pub place: Place,
}

/// The place in a text of `total` bytes before which `left` of them are left.
fn place_before(total: usize, left: usize) -> u32
    requires { total ≤ 1048576 }
    ensures { result ≡ total - left }
{
    total.saturating_sub(left) as u32
}

/// Whether a text may end here, and does.
#[tactic(auto, using(crate::proofs::HtmlTextLemmas::empty_text))]
fn is_complete(stand: Stand, bytes: &[u8]) -> bool
    ensures { MatchBool result ((bytes.now ≡ []) × (stand ≡ Anything)) (bytes.now ≡ [] → stand ≡ Anything → ⊥) }
{
    match stand {
        Stand::Anything => bytes.is_empty(),
        Stand::TitleText | Stand::StyleText | Stand::ItsEnd => false,
    }
}

/// Puts the piece behind the words, if it is a token, and gives what may stand behind it.
fn put_piece<'a>(
    words: &mut Vec<HtmlWord<'a>>,
    stand: Stand,
    piece: Piece<'a>,
    place: Place,
) -> Result<Stand, NoMemory>
    ensures words { OnOk result (map shown_word words.new.items ≡ map shown_word words.old.items ++ with_token place (shown_piece piece.entry) []) }
    ensures stand { IfOk result (λ next. next ≡ after_piece stand (shown_piece piece.entry)) }
{
    match piece {
        Piece::Between => Ok(stand),
        Piece::Token(content) => {
            let next = after_token(&content);
            words.push(HtmlWord { content, place })?;
            Ok(next)
        }
    }
}

/// The tokens of a text with their content. It is `Ok` exactly where the whole text is tokens, with white space and
/// comments between them; else `BadToken` tells the first place where none of these begins.
pub fn scan_words<'a>(alloc: Global, text: &'a [u8]) -> Result<Vec<HtmlWord<'a>>, ScanFault>
    requires { length text.now ≤ 1048576 }
    ensures ok { IfOk result (λ words. AreWordsOf text.now (map shown_word words.items)) }
    ensures err { IfErr result (λ fault. IsScanFault text.now fault) }
{
    let mut words = Vec::new(alloc);
    let mut stand = Stand::Anything;
    let mut bytes = text;
    'reading: while !is_complete(stand, bytes) {
        let Some((piece, rest)) = first_piece(alloc, stand, bytes)? else {
            return Err(ScanFault::BadToken {
                at: place_before(text.len(), bytes.len()),
            });
        };
        let from = place_before(text.len(), bytes.len());
        let to = place_before(text.len(), rest.len());
        stand = put_piece(&mut words, stand, piece, Place { from, to })?;
        bytes = rest;
    }
    Ok(words)
}

/// The tokens of a text, with their places. It is `Ok` exactly where the whole text is tokens, with white space and
/// comments between them; else `BadToken` tells the first place where none of these begins.
pub fn scan_html(alloc: Global, text: &[u8]) -> Result<List<HtmlToken>, ScanFault>
    requires { length text.now ≤ 1048576 }
    ensures ok { IfOk result (λ tokens. AreTokensOf text.now tokens) }
    ensures err { IfErr result (λ fault. IsScanFault text.now fault) }
{
    let words = scan_words(alloc, text)?;
    let mut tokens = List::new(alloc);
    'telling: for word in &words {
        tokens.push(HtmlToken {
            kind: word.content.kind,
            place: word.place,
        })?;
    }
    Ok(tokens)
}
