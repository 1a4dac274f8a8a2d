// What a command line asks for.
use page_model::{Rgb, Setup};

/// What is to be done. A `usize` is the place of a word among the words, the first of which has place 0.
#[derive(Clone, Copy, Debug)]
pub enum Command {
    /// Judge the page that the word at `page` names, at this viewport and rate.
    Check {
        page: usize,
        setup: Setup,
    },
    /// Test the witness that the word at `witness` names against the page that the word at `page` names, at this viewport
    /// and rate.
    Verify {
        page: usize,
        witness: usize,
        setup: Setup,
    },
    /// Tell the tint of the pixel at column `x` and row `y` of the viewport, in this frame of the page that the word at
    /// `page` names.
    Tint {
        page: usize,
        setup: Setup,
        frame: u32,
        x: u16,
        y: u16,
    },
    /// Tell how light a colour is, and whether it is a saturated red.
    Light {
        colour: Rgb,
    },
    /// Judge the page that is made from a number, at this viewport and rate.
    Demo {
        number: u32,
        setup: Setup,
    },
}

/// The words spell no command.
#[derive(Clone, Copy, Debug, PartialEq, Eq)]
pub struct WordsFault;
