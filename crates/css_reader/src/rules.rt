// Style rules.
ghost use Rattle.std.specs.Prelude.{◌≡◌, []};
ghost use Rattle.css_declarations.specs.DeclarationReading.{shown};
ghost use Rattle.css_declarations.specs.declared.context.Context.TheVariants as contexts;
ghost use Rattle.css_selectors.specs.Readings.{Braced, Declares, Fills, Puts};
ghost use Rattle.css_reader.specs.SheetGrammar.{IsRule, with_item};

use crate::sheet::Sheet;
use css_declarations::{Context, SheetFault, declarations};
use css_parts::tokens::{close_at, open_at};
use css_selectors::selectors_at;
use page_model::{Decl, List, Rule};
use std::alloc::Global;
use style_tokens::CssToken;

/// Declarations in braces, and the tokens behind them.
pub(crate) fn body_at<'a>(
    alloc: Global,
    context: Context,
    text: &[u8],
    end: u32,
    tokens: &'a [CssToken],
    decls: &mut List<Decl>,
) -> Result<&'a [CssToken], SheetFault>
    requires { decls.old ≡ [] }
    ensures { Fills (Braced end (Declares context text.now end) tokens.now) decls.new (shown (λ rest. rest.now) result) }
{
    let rest = match open_at(end, tokens) {
        Ok((_, rest)) => rest,
        Err(fault) => return Err(fault),
    };
    let rest = match declarations(alloc, context, text, end, rest, decls) {
        Ok(rest) => rest,
        Err(fault) => return Err(fault),
    };
    match close_at(end, rest) {
        Ok((_, rest)) => Ok(rest),
        Err(fault) => Err(fault),
    }
}

/// A rule is put last in a sheet; the tokens behind it.
pub(crate) fn rule_at<'a>(
    alloc: Global,
    text: &'a [u8],
    end: u32,
    tokens: &'a [CssToken],
    sheet: &mut Sheet,
) -> Result<&'a [CssToken], SheetFault>
    ensures { Puts with_item (IsRule text.now end tokens.now) sheet.old sheet.new (shown (λ rest. rest.now) result) }
{
    let mut selectors = List::new(alloc);
    let rest = match selectors_at(alloc, text, end, tokens, &mut selectors) {
        Ok(rest) => rest,
        Err(fault) => return Err(fault),
    };
    let mut decls = List::new(alloc);
    let rest = match body_at(alloc, Context::Rule, text, end, rest, &mut decls) {
        Ok(rest) => rest,
        Err(fault) => return Err(fault),
    };
    sheet.push_rule(Rule { selectors, decls })?;
    Ok(rest)
}
