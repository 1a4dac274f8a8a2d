// Attributes of a tag.
ghost use Rattle.std.specs.Prelude.{◌≡◌};
ghost use Rattle.std.specs.Option.{option_copied, option_map};
ghost use Rattle.page_tokens.specs.HtmlReading.{attribute_at, equals_at, quoted_at, value_at};
ghost use Rattle.page_tokens.specs.HtmlShown.{attribute_now, value_now};

use crate::html_runs::{HtmlClass, after_byte, after_spaced_byte, after_white, name, run};

/// An attribute of a tag.
#[derive(Clone, Copy, Debug)]
pub struct HtmlAttribute<'a> {
    pub name: &'a [u8],
    pub value: &'a [u8],
    /// How many bytes of the text are left from the value's first byte on.
    pub left: usize,
}

/// A value in quotes, how many bytes are left from its first one on, and the rest behind it.
type Value<'a> = (&'a [u8], usize, &'a [u8]);

/// The rest after `=` and the white space around it.
#[tactic(auto, unfolding(crate::specs::HtmlReading::equals_at))]
fn after_equals(bytes: &[u8]) -> Option<&[u8]>
    ensures { option_copied result ≡ equals_at bytes.now }
{
    let after = after_spaced_byte(b'=', bytes)?;
    Some(run(HtmlClass::White, after).1)
}

/// The value that ends with this quote.
#[tactic(auto, unfolding(crate::specs::HtmlReading::value_at))]
fn value(quote: u8, bytes: &[u8]) -> Option<Value<'_>>
    ensures { option_map value_now result ≡ value_at quote bytes.now }
{
    let (value, after) = run(HtmlClass::Value(quote), bytes);
    let rest = after_byte(quote, after)?;
    Some((value, bytes.len(), rest))
}

/// The value in the quotes that stand first.
#[tactic(auto, unfolding(crate::specs::HtmlReading::quoted_at))]
fn quoted(bytes: &[u8]) -> Option<Value<'_>>
    ensures { option_map value_now result ≡ quoted_at bytes.now }
{
    let (quote, after) = bytes.split_first()?;
    if *quote == b'"' || *quote == b'\'' {
        value(*quote, after)
    } else {
        None
    }
}

/// White space and an attribute, and the rest behind it.
#[tactic(auto, unfolding(crate::specs::HtmlReading::attribute_at))]
pub(crate) fn attribute(bytes: &[u8]) -> Option<(HtmlAttribute<'_>, &[u8])>
    ensures { option_map attribute_now result ≡ attribute_at bytes.now }
{
    let at_name = after_white(bytes)?;
    let (name, at_equals) = name(HtmlClass::AttributeName, at_name)?;
    let at_value = after_equals(at_equals)?;
    let (value, left, rest) = quoted(at_value)?;
    Some((HtmlAttribute { name, value, left }, rest))
}
