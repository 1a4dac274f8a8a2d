// What a token stands for.
ghost use Rattle.std.specs.Prelude.{◌≡◌, ◌&&◌, IfOk, map, not};
ghost use Rattle.page_tokens.specs.HtmlShown.{shown_attribute, shown_word};
ghost use Rattle.page_reader.specs.PageSymbols.{are_box_attributes, closing_symbol, opening_symbol, symbol_of, where_good};

use crate::attributes::{are_box_attributes, are_html_attributes, are_meta_attributes};
use crate::symbol::{BoxTag, Symbol};
use crate::tag_name::{TagName, tag_named};
use page_model::NoMemory;
use page_tokens::{HtmlAttribute, HtmlKind, HtmlWord};
use std::alloc::Global;

/// The symbol where a test holds.
fn where_good(good: bool, symbol: Symbol) -> Symbol
    ensures { result ≡ where_good good symbol }
{
    if good { symbol } else { Symbol::Other }
}

/// The symbol of an opening tag that has box attributes.
fn box_symbol(
    alloc: Global,
    attributes: &[HtmlAttribute<'_>],
    slash: bool,
    symbol: Symbol,
) -> Result<Symbol, NoMemory>
    ensures { IfOk result (λ s. s ≡ where_good (not slash && are_box_attributes (map shown_attribute attributes.now)) symbol) }
{
    if slash {
        return Ok(Symbol::Other);
    }
    let good = are_box_attributes(alloc, attributes)?;
    Ok(where_good(good, symbol))
}

/// What an opening tag stands for.
fn opening_symbol(
    alloc: Global,
    tag: TagName,
    attributes: &[HtmlAttribute<'_>],
    slash: bool,
) -> Result<Symbol, NoMemory>
    ensures { IfOk result (λ symbol. symbol ≡ opening_symbol tag (map shown_attribute attributes.now) slash) }
{
    match tag {
        TagName::Html => Ok(where_good(
            !slash && are_html_attributes(attributes),
            Symbol::OpenHtml,
        )),
        TagName::Head => Ok(where_good(!slash && attributes.is_empty(), Symbol::OpenHead)),
        TagName::Meta => Ok(where_good(are_meta_attributes(attributes), Symbol::OpenMeta)),
        TagName::Title => Ok(where_good(!slash && attributes.is_empty(), Symbol::OpenTitle)),
        TagName::Style => Ok(where_good(!slash && attributes.is_empty(), Symbol::OpenStyle)),
        TagName::Body => box_symbol(alloc, attributes, slash, Symbol::OpenBody),
        TagName::DivBox => box_symbol(alloc, attributes, slash, Symbol::OpenBox(BoxTag::Div)),
        TagName::SpanBox => box_symbol(alloc, attributes, slash, Symbol::OpenBox(BoxTag::Span)),
        TagName::Unknown => Ok(Symbol::Other),
    }
}

/// What a closing tag stands for.
fn closing_symbol(tag: TagName) -> Symbol
    ensures { result ≡ closing_symbol tag }
{
    match tag {
        TagName::Html => Symbol::CloseHtml,
        TagName::Head => Symbol::CloseHead,
        TagName::Title => Symbol::CloseTitle,
        TagName::Style => Symbol::CloseStyle,
        TagName::Body => Symbol::CloseBody,
        TagName::DivBox => Symbol::CloseBox(BoxTag::Div),
        TagName::SpanBox => Symbol::CloseBox(BoxTag::Span),
        TagName::Meta | TagName::Unknown => Symbol::Other,
    }
}

/// What a token stands for.
pub(crate) fn symbol_of(alloc: Global, word: &HtmlWord<'_>) -> Result<Symbol, NoMemory>
    ensures { IfOk result (λ symbol. symbol ≡ symbol_of (shown_word word.now)) }
{
    let name = word.content.name;
    match word.content.kind {
        HtmlKind::Doctype => Ok(Symbol::Doctype),
        HtmlKind::Opening => opening_symbol(
            alloc,
            tag_named(name),
            word.content.attributes.as_slice(),
            word.content.slash,
        ),
        HtmlKind::Closing => Ok(closing_symbol(tag_named(name))),
        HtmlKind::Raw => Ok(Symbol::RawText(word.place)),
    }
}
