// The tokens of a value, and what they spell.
ghost use Rattle.std.specs.Prelude.{◌≡◌, ◌∷◌, ◌≤◌, [], IfOk, length};
ghost use Rattle.css_items.specs.Lists.{Gives};
ghost use Rattle.css_words.specs.Words.{words};
ghost use Rattle.css_declarations.specs.DeclarationGrammar.{one_easing, value_in};
ghost use Rattle.css_declarations.specs.DeclarationReading.{Tells, fault_at, value_at, value_front, value_length, value_rest};

use crate::context::{Context, has_one_easing};
use crate::fault::SheetFault;
use crate::tokens::{ends_value, place_of};
use css_values::types::Property;
use css_values::{ValueFault, declaration, easing};
use page_model::{Easing, List, Longhand, NoMemory};
use std::alloc::Global;
use style_tokens::CssToken;

/// How many tokens a value has.
fn value_length(tokens: &[CssToken]) -> usize
    ensures exact { result ≡ value_length tokens.now }
    ensures within { result ≤ length tokens.now }
{
    let mut count = 0;
    let mut rest = tokens;
    'counting: while let Some((first, more)) = rest.split_first() {
        if ends_value(first.kind) {
            return count;
        }
        count += 1;
        rest = more;
    }
    count
}

/// The tokens of a value, and those behind them.
#[tactic(auto, using(crate::proofs::ValueLemmas::take_value, crate::proofs::ValueLemmas::drop_value))]
pub(crate) fn split_value(tokens: &[CssToken]) -> (&[CssToken], &[CssToken])
    ensures front { result.0.now ≡ value_front tokens.now }
    ensures rest { result.1.now ≡ value_rest tokens.now }
{
    tokens.split_at(value_length(tokens))
}

/// A list of one easing.
fn one_easing(alloc: Global, easing: Easing) -> Result<List<Longhand>, NoMemory>
    ensures { IfOk result (λ list. list ≡ one_easing easing) }
{
    let mut easings = List::new(alloc);
    easings.push(easing)?;
    let mut list = List::new(alloc);
    list.push(Longhand::Easings(easings))?;
    Ok(list)
}

/// What words spell for a property there.
#[tactic(auto, unfolding(crate::specs::DeclarationGrammar::value_in))]
fn value_in(
    alloc: Global,
    context: Context,
    property: Property,
    text: &[u8],
    tokens: &[CssToken],
) -> Result<List<Longhand>, ValueFault>
    ensures { Gives result (value_in context property (words text.now tokens.now)) }
{
    if has_one_easing(context, property) {
        let easing = easing(text, tokens)?;
        return Ok(one_easing(alloc, easing)?);
    }
    declaration(alloc, property, text, tokens)
}

/// A fault of a value at a place.
fn fault_at(at: u32, fault: ValueFault) -> SheetFault
    ensures { result ≡ fault_at at fault }
{
    match fault {
        ValueFault::BadValue => SheetFault::BadValue { at },
        ValueFault::OverLimit => SheetFault::OverLimit { at },
        ValueFault::NoMemory => SheetFault::NoMemory,
    }
}

/// What the value at the front of some tokens means for a property.
#[tactic(auto, unfolding(crate::specs::DeclarationReading::value_at))]
pub(crate) fn value_at(
    alloc: Global,
    context: Context,
    text: &[u8],
    end: u32,
    property: Property,
    tokens: &[CssToken],
) -> Result<List<Longhand>, SheetFault>
    ensures { Tells result (value_at context text.now end property tokens.now) }
{
    let (value, _) = split_value(tokens);
    match value_in(alloc, context, property, text, value) {
        Ok(longhands) => Ok(longhands),
        Err(fault) => Err(fault_at(place_of(end, tokens), fault)),
    }
}
