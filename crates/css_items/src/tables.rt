// The tables of items that are one word.
ghost use Rattle.std.specs.Prelude.{◌≡◌, map};
ghost use Rattle.css_items.specs.ItemWords.{direction_words, fill_words, play_words, reserved_words, visibility_words};
ghost use Rattle.css_words.specs.Keywords.{lookup};

use css_words::{Keyword, find};
use page_model::{Direction, Fill};

static DIRECTIONS: [Keyword<Direction>; 4] = [
    Keyword {
        word: b"normal",
        value: Direction::Normal,
    },
    Keyword {
        word: b"reverse",
        value: Direction::Reverse,
    },
    Keyword {
        word: b"alternate",
        value: Direction::Alternate,
    },
    Keyword {
        word: b"alternate-reverse",
        value: Direction::AlternateReverse,
    },
];

static FILLS: [Keyword<Fill>; 4] = [
    Keyword {
        word: b"none",
        value: Fill::Absent,
    },
    Keyword {
        word: b"forwards",
        value: Fill::Forwards,
    },
    Keyword {
        word: b"backwards",
        value: Fill::Backwards,
    },
    Keyword {
        word: b"both",
        value: Fill::Both,
    },
];

static PLAYS: [Keyword<bool>; 2] = [
    Keyword {
        word: b"running",
        value: false,
    },
    Keyword {
        word: b"paused",
        value: true,
    },
];

static VISIBILITIES: [Keyword<bool>; 2] = [
    Keyword {
        word: b"visible",
        value: true,
    },
    Keyword {
        word: b"hidden",
        value: false,
    },
];

static RESERVED: [Keyword<bool>; 4] = [
    Keyword {
        word: b"initial",
        value: true,
    },
    Keyword {
        word: b"inherit",
        value: true,
    },
    Keyword {
        word: b"unset",
        value: true,
    },
    Keyword {
        word: b"revert",
        value: true,
    },
];

/// The direction of this name.
pub fn direction_named(bytes: &[u8]) -> Option<Direction>
    ensures { result ≡ lookup direction_words bytes.now }
{
    find(&DIRECTIONS, bytes)
}

/// The fill mode of this name.
pub fn fill_named(bytes: &[u8]) -> Option<Fill>
    ensures { result ≡ lookup fill_words bytes.now }
{
    find(&FILLS, bytes)
}

/// Whether the play state of this name is `paused`.
pub fn play_named(bytes: &[u8]) -> Option<bool>
    ensures { result ≡ lookup play_words bytes.now }
{
    find(&PLAYS, bytes)
}

/// Whether the visibility of this name is `visible`.
pub fn visibility_named(bytes: &[u8]) -> Option<bool>
    ensures { result ≡ lookup visibility_words bytes.now }
{
    find(&VISIBILITIES, bytes)
}

/// Whether the bytes are a keyword that names no keyframe set; `None`, where they are another word.
pub fn reserved(bytes: &[u8]) -> Option<bool>
    ensures { result ≡ lookup reserved_words bytes.now }
{
    find(&RESERVED, bytes)
}
