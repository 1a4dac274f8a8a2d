// Colours as a command line writes them.
ghost use Rattle.std.specs.Prelude.{◌≡◌, ℕ, IfSome};
ghost use Rattle.page_model.specs.declared.colour.Rgb.{Rgb as Colour};
ghost use Rattle.flash_words.specs.Colours.{IsHexPair, SpellsColour};

use page_model::Rgb;

/// The number that two hexadecimal digits write, of either case.
fn pair(high: u8, low: u8) -> Option<u8>
    ensures written { IfSome result (IsHexPair high low) }
    ensures read { (n : ℕ) → IsHexPair high low n → result ≡ Some n }
{
    let high = char::from(high).to_digit(16)?;
    let low = char::from(low).to_digit(16)?;
    Some((16 * high + low) as u8)
}

/// The colour that six hexadecimal digits write, two for each channel, of either case.
pub fn colour(word: &str) -> Option<Rgb>
    ensures written { IfSome result (SpellsColour word.now) }
    ensures read { (c : Colour) → SpellsColour word.now c → result ≡ Some c }
{
    let [r1, r2, g1, g2, b1, b2] = word.as_bytes() else {
        return None;
    };
    let r = pair(*r1, *r2)?;
    let g = pair(*g1, *g2)?;
    let b = pair(*b1, *b2)?;
    Some(Rgb { r, g, b })
}
