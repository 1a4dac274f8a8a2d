//! Declarations of a style text, and inline styles.
//!
//! [`read_inline`] gives the declarations of a `style` attribute. [`declarations`] reads those of a rule or of a
//! block of keyframes from tokens, and leaves the tokens from the `}` on: the reader of style sheets stands on it.
//!
//! The clauses say that what is given is spelled, that a fault is the first one of the text, with its kind and its
//! place, and that a text has one reading at most, so that both are told exactly where they are; by
//! [`every_inline_is_judged`] there is one. A property's name is judged before its colon, and a value before what
//! follows it. Where it is read, a declaration is one of a [`Context`]: in a block only properties that can be
//! animated may stand, and nothing is important.
//!
//! What a value means is said by `css_values`; which declaration wins is not said here.
#![tactic(auto)]

mod context;
mod declaration;
mod declaration_list;
mod fault;
mod inline;
mod laws;
mod tokens;
mod values;

pub use context::Context;
pub use declaration_list::declarations;
pub use fault::SheetFault;
pub use inline::read_inline;
pub use laws::{every_inline_is_judged, one_inline_reading};
pub use tokens::{place_of, token_text};
