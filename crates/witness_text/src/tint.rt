// How a tint is spelled.
ghost use Rattle.std.specs.Prelude.{◌≡◌, string_bytes, IfOk};
ghost use Rattle.witness_text.specs.TintText.{tint_text};

use page_model::{Rgb, Tint};
use std::alloc::{AllocError, Global};
use std::fmt;

/// A colour, shown as `rrggbb` in lower case.
#[derive(Clone, Copy)]
struct Hex(Rgb);

impl fmt::Display for Hex {
    ghost use Rattle.std.specs.Prelude.{Some};
    ghost use Rattle.witness_text.specs.TintText.{colour_text};

    ghost output = { λ h. Some (colour_text h.0) };

    fn fmt<W: fmt::Write>(&self, f: &mut fmt::Formatter<W>) -> fmt::Result {
        let Rgb { r, g, b } = self.0;
        write!(f, "{r:02x}{g:02x}{b:02x}")
    }
}

/// The spelling of a tint: `rrggbb`, or `rrggbb-rrggbb` where its two colours differ.
#[tactic(auto, unfolding(crate::specs::TintText::tint_text))]
pub fn spelling(alloc: Global, tint: &Tint) -> Result<String, AllocError>
    ensures { IfOk result (λ s. string_bytes s ≡ tint_text tint.now) }
{
    let lower = Hex(tint.lo);
    if tint.lo == tint.hi {
        return format!(in alloc; "{lower}");
    }
    let upper = Hex(tint.hi);
    format!(in alloc; "{lower}-{upper}")
}
