//! From the bytes of a page to its elements and to the place of its style text.
//!
//! [`read_page`] is all that those who load a page need. Its clauses say that it answers the one page that the
//! bytes spell, where that has a body and at most 64 boxes, `TooMany` where it has more, and `BadText` exactly
//! where the bytes spell no page, with the place where they cease to: of UTF-8 first, then of control bytes, of
//! tokens, and of the grammar, whose place is the end of the longest front of tokens that begins some page. Every text
//! has one of the three answers ([`every_text_is_a_page_or_not`]), and no text has two ([`one_page_reading`]).
//!
//! The grammar has no state: the tokens of a page are a function of its parts, and what may stand next is known
//! to the code alone. Boxes that stand in one another would change the rule of boxes and nothing else.
//!
//! What the style text and the `style` attributes say is not looked at.
#![tactic(auto)]

mod attributes;
mod distinct;
mod elements;
mod fault;
mod judging;
mod laws;
mod reading;
mod stage;
mod symbol;
mod symbols;
mod tag_name;

pub use fault::PageFault;
pub use laws::{every_text_is_a_page_or_not, one_page_reading, page_is_whole};
pub use reading::read_page;
