// The first chain of a list of tints.
ghost use Rattle.std.specs.Prelude.{◌≤◌, length, MatchOption};
ghost use Rattle.flash_count.specs.Chains.{HasSureChain, IsFirstTrace};

use page_model::{Kind, Tint};
use tint_changes::{FRAMES, SURE, SURE_RED, first_chain};

/// The kind of a chain, and its nine places in the list of tints.
#[derive(Clone, Copy, Debug, PartialEq, Eq)]
pub struct Trace {
    pub kind: Kind,
    pub places: [u16; FRAMES],
}

/// The first chain of sure changes: of all such nine places the least, compared place by place from
/// the front. It is one of luminance, or one of red where there is none of luminance. `None` exactly
/// where there is none of either kind.
pub fn chain(tints: &[Tint]) -> Option<Trace>
    requires { length tints.now ≤ 241 }
    ensures { MatchOption result (HasSureChain tints.now → ⊥) (λ trace. IsFirstTrace tints.now trace) }
{
    if let Some(places) = first_chain(tints, SURE) {
        let kind = Kind::General;
        return Some(Trace { kind, places });
    }
    if let Some(places) = first_chain(tints, SURE_RED) {
        let kind = Kind::Red;
        return Some(Trace { kind, places });
    }
    None
}
