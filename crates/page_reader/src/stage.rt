// What may stand next in a page.
ghost use Rattle.std.specs.Prelude.{◌≡◌};
ghost use Rattle.page_reader.specs.PageReading.{after_box, after_box_end, after_item, next_stage, sheet_seen};

use crate::symbol::{BoxTag, Symbol};
use page_model::Place;

/// The place of a style element that is missing.
pub(crate) const NOWHERE: Place = Place { from: 0, to: 0 };

/// What was seen in a head: whether there was a title, and where the text of the style stands.
#[derive(Clone, Copy, Debug)]
pub(crate) struct Seen {
    pub title: bool,
    pub sheet: Option<Place>,
}

/// What is to come next.
#[derive(Clone, Copy, Debug)]
pub(crate) enum Stage {
    AtDoctype,
    AtHtml,
    AtHead,
    AtItem(Seen),
    AtTitleText(Seen),
    AtTitleEnd(Seen),
    AtStyleText(Seen),
    AtStyleEnd(Seen),
    AtBody(Place),
    AtBox(Place),
    AtBoxEnd(Place, BoxTag),
    AtHtmlEnd(Place),
    AtEnd(Place),
}

/// The stage behind a token of the head.
fn after_item(seen: Seen, symbol: Symbol) -> Option<Stage>
    ensures { result ≡ after_item seen symbol }
{
    match symbol {
        Symbol::OpenMeta => Some(Stage::AtItem(seen)),
        Symbol::OpenTitle => {
            if seen.title {
                None
            } else {
                Some(Stage::AtTitleText(Seen {
                    title: true,
                    sheet: seen.sheet,
                }))
            }
        }
        Symbol::OpenStyle => {
            if seen.sheet.is_some() {
                None
            } else {
                Some(Stage::AtStyleText(seen))
            }
        }
        Symbol::CloseHead => Some(Stage::AtBody(seen.sheet.unwrap_or(NOWHERE))),
        _ => None,
    }
}

/// The stage behind a token between boxes.
fn after_box(sheet: Place, symbol: Symbol) -> Option<Stage>
    ensures { result ≡ after_box sheet symbol }
{
    match symbol {
        Symbol::OpenBox(tag) => Some(Stage::AtBoxEnd(sheet, tag)),
        Symbol::CloseBody => Some(Stage::AtHtmlEnd(sheet)),
        _ => None,
    }
}

/// The stage behind the end of a box.
fn after_box_end(sheet: Place, tag: BoxTag, symbol: Symbol) -> Option<Stage>
    ensures { result ≡ after_box_end sheet tag symbol }
{
    match (tag, symbol) {
        (BoxTag::Div, Symbol::CloseBox(BoxTag::Div)) => Some(Stage::AtBox(sheet)),
        (BoxTag::Span, Symbol::CloseBox(BoxTag::Span)) => Some(Stage::AtBox(sheet)),
        _ => None,
    }
}

/// The stage behind a token, if it may stand there.
pub(crate) fn next_stage(stage: Stage, symbol: Symbol) -> Option<Stage>
    ensures { result ≡ next_stage stage symbol }
{
    match (stage, symbol) {
        (Stage::AtDoctype, Symbol::Doctype) => Some(Stage::AtHtml),
        (Stage::AtHtml, Symbol::OpenHtml) => Some(Stage::AtHead),
        (Stage::AtHead, Symbol::OpenHead) => Some(Stage::AtItem(Seen {
            title: false,
            sheet: None,
        })),
        (Stage::AtItem(seen), symbol) => after_item(seen, symbol),
        (Stage::AtTitleText(seen), Symbol::RawText(_)) => Some(Stage::AtTitleEnd(seen)),
        (Stage::AtTitleEnd(seen), Symbol::CloseTitle) => Some(Stage::AtItem(seen)),
        (Stage::AtStyleText(seen), Symbol::RawText(place)) => {
            Some(Stage::AtStyleEnd(Seen {
                title: seen.title,
                sheet: Some(place),
            }))
        }
        (Stage::AtStyleEnd(seen), Symbol::CloseStyle) => Some(Stage::AtItem(seen)),
        (Stage::AtBody(sheet), Symbol::OpenBody) => Some(Stage::AtBox(sheet)),
        (Stage::AtBox(sheet), symbol) => after_box(sheet, symbol),
        (Stage::AtBoxEnd(sheet, tag), symbol) => after_box_end(sheet, tag, symbol),
        (Stage::AtHtmlEnd(sheet), Symbol::CloseHtml) => Some(Stage::AtEnd(sheet)),
        _ => None,
    }
}
