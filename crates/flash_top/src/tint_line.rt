// How a tint is told.
ghost use Rattle.std.specs.Prelude.{◌≡◌, IfOk, string_bytes};
ghost use Rattle.flash_top.specs.Texts.{tint_line};

use page_model::{NoMemory, Rgb, Tint};
use std::alloc::Global;
use std::fmt;

/// A colour, shown as `rrggbb` in lower case.
#[derive(Clone, Copy)]
struct Hex(Rgb);

impl fmt::Display for Hex {
    ghost use Rattle.std.specs.Prelude.{Some};
    ghost use Rattle.witness_text.specs.TintText.{colour_text};

    ghost output = { λ h. Some (colour_text h.0) };

    fn fmt<W: fmt::Write>(&self, f: &mut fmt::Formatter<W>) -> fmt::Result {
        let Rgb { r, g, b } = self.0;
        write!(f, "{r:02x}{g:02x}{b:02x}")
    }
}

/// The line of a tint: `#rrggbb`, or `#rrggbb-#rrggbb`, the lower colour first, where its two colours differ.
#[tactic(auto, unfolding(crate::specs::Texts::tint_line))]
pub(crate) fn tint_line(alloc: Global, tint: &Tint) -> Result<String, NoMemory>
    ensures { IfOk result (λ text. string_bytes text ≡ tint_line tint.now) }
{
    let lower = Hex(tint.lo);
    if tint.lo == tint.hi {
        return Ok(format!(in alloc; "#{lower}")?);
    }
    let upper = Hex(tint.hi);
    Ok(format!(in alloc; "#{lower}-#{upper}")?)
}
