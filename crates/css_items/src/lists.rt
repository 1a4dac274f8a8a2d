// Lists of values with commas between.
ghost use Rattle.std.specs.Prelude.{◌≡◌, ◌∷◌, ◌<◌, ◌≤◌, IfSome, false, length, List as Items, Result as Outcome, if◌then◌else◌};
ghost use Rattle.std.specs.Option.{option_copied};
ghost use Rattle.css_words.specs.declared.fault.ValueFault.{ValueFault as Fault};
ghost use Rattle.css_words.specs.declared.fault.ValueFault.TheVariants.{OverLimit};
ghost use Rattle.css_items.specs.ListReading.{Adds, later, piece_length};
ghost use Rattle.css_items.specs.Lists.{Gives, goes_in, list_of, pieces};
ghost use Rattle.css_words.specs.Words.{Word, words};

use css_words::ValueFault;
use page_model::List;
use std::alloc::Global;
use style_tokens::{CssKind, CssToken};

/// A kind of items that lists are made of.
pub trait Item {
    /// What an item means.
    type Value: Drop;

    ghost item: { Items Word → Outcome Self.Value Fault };

    /// The value of one item.
    fn read(alloc: Global, text: &[u8], tokens: &[CssToken]) -> Result<Self::Value, ValueFault>
        ensures { Gives result (item (words text.now tokens.now)) };
}

/// The items that were read, and whether one of the others was past a limit.
#[derive(Drop)]
pub struct Gathered<T> {
    items: List<T>,
    over: bool,
}

impl<T: Drop> Gathered<T> {
    /// One more item.
    fn add(&mut self, item: Result<T, ValueFault>) -> Result<(), ValueFault>
        ensures { Adds self.old.items self.old.over self.new.items self.new.over item result }
    {
        match item {
            Ok(value) => {
                self.items.push(value)?;
                Ok(())
            }
            Err(ValueFault::OverLimit) => {
                self.over = true;
                Ok(())
            }
            Err(fault) => Err(fault),
        }
    }

    /// The list of all.
    fn finish(self) -> Result<List<T>, ValueFault>
        ensures { result ≡ (if self.over then Err OverLimit else Ok self.items) }
    {
        let Gathered { items, over } = self;
        if over {
            Err(ValueFault::OverLimit)
        } else {
            Ok(items)
        }
    }
}

/// Tokens up to a comma, and those behind it, if a comma stands there.
#[derive(Clone, Copy)]
struct Piece<'a> {
    item: &'a [CssToken],
    rest: Option<&'a [CssToken]>,
}

/// Whether the tokens behind one of this kind stand in parentheses.
fn goes_in(inside: bool, kind: CssKind) -> bool
    ensures { result ≡ goes_in inside kind }
{
    match kind {
        CssKind::Function => true,
        CssKind::RightParen => false,
        _ => inside,
    }
}

/// How many tokens stand before the first comma outside parentheses.
fn piece_length(tokens: &[CssToken]) -> usize
    ensures exact { result ≡ piece_length false tokens.now }
    ensures within { result ≤ length tokens.now }
{
    let mut inside = false;
    let mut count = 0;
    let mut rest = tokens;
    'counting: while let Some((first, more)) = rest.split_first() {
        if !inside && matches!(first.kind, CssKind::Comma) {
            return count;
        }
        inside = goes_in(inside, first.kind);
        count += 1;
        rest = more;
    }
    count
}

/// The first piece between commas.
fn next_piece<'a>(text: &[u8], tokens: &'a [CssToken]) -> Piece<'a>
    ensures pieces { pieces false (words text.now tokens.now)
        ≡ words text.now result.item.now ∷ later text.now (option_copied result.rest) }
    ensures shorter { IfSome result.rest (λ rest. length rest.now < length tokens.now) }
{
    let count = piece_length(tokens);
    let (item, behind) = tokens.split_at(count);
    match behind.split_first() {
        Some((_, rest)) => Piece {
            item,
            rest: Some(rest),
        },
        None => Piece { item, rest: None },
    }
}

/// A list of one item or more with commas between.
pub fn list_of<I: Item>(
    alloc: Global,
    text: &[u8],
    tokens: &[CssToken],
) -> Result<List<I::Value>, ValueFault>
    ensures { Gives result (list_of I.item (words text.now tokens.now)) }
{
    let mut gathered = Gathered {
        items: List::new(alloc),
        over: false,
    };
    let mut rest = tokens;
    'items: loop {
        let piece = next_piece(text, rest);
        gathered.add(I::read(alloc, text, piece.item))?;
        match piece.rest {
            Some(more) => rest = more,
            None => return gathered.finish(),
        }
    }
}
