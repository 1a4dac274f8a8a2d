//! The whole value of a slot on its way from one number to another: rounded half up and held in its range.
//!
//! What puts the state of a layer together asks this crate for each number that a pixel is painted from: the channels
//! and the cover of a colour, the alpha of an opacity and the sides of a box. How much of the way is made is told by two
//! ends, which are one where the eased value is a fraction; then the whole value has a least and a greatest, which are
//! those at the ends. [`slot_value`] gives them for a slot, [`channel_on`] for a colour's channel, which goes by the
//! premultiplied colours and is anything where the alpha is gone at one end alone, and [`still`] gives the value of a
//! slot that stays. Their key clause is `own`: where the ends are those of an eased value, these are the values that the
//! definitions' own kind of enclosure knows.
//!
//! Which values a property is between, and how far it is on its way, is not said here.
#![tactic(auto)]

mod channels;
mod slots;
mod types;

pub use channels::channel_on;
pub use slots::{slot_value, still};
pub use types::{ALPHA, COVER, EXTENT, POSITION, Shade, Slot};
