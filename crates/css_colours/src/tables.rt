// The table of colours.
ghost use Rattle.std.specs.Prelude.{◌≡◌, map};
ghost use Rattle.css_colours.specs.ColourNames.{colour_names};
ghost use Rattle.css_words.specs.Keywords.{lookup};

use css_words::{Keyword, find};
use page_model::Rgba;

static COLOURS: [Keyword<Rgba>; 18] = [
    Keyword {
        word: b"aqua",
        value: Rgba {
            r: 0,
            g: 255,
            b: 255,
            a: 255_000,
        },
    },
    Keyword {
        word: b"black",
        value: Rgba {
            r: 0,
            g: 0,
            b: 0,
            a: 255_000,
        },
    },
    Keyword {
        word: b"blue",
        value: Rgba {
            r: 0,
            g: 0,
            b: 255,
            a: 255_000,
        },
    },
    Keyword {
        word: b"fuchsia",
        value: Rgba {
            r: 255,
            g: 0,
            b: 255,
            a: 255_000,
        },
    },
    Keyword {
        word: b"gray",
        value: Rgba {
            r: 128,
            g: 128,
            b: 128,
            a: 255_000,
        },
    },
    Keyword {
        word: b"green",
        value: Rgba {
            r: 0,
            g: 128,
            b: 0,
            a: 255_000,
        },
    },
    Keyword {
        word: b"lime",
        value: Rgba {
            r: 0,
            g: 255,
            b: 0,
            a: 255_000,
        },
    },
    Keyword {
        word: b"maroon",
        value: Rgba {
            r: 128,
            g: 0,
            b: 0,
            a: 255_000,
        },
    },
    Keyword {
        word: b"navy",
        value: Rgba {
            r: 0,
            g: 0,
            b: 128,
            a: 255_000,
        },
    },
    Keyword {
        word: b"olive",
        value: Rgba {
            r: 128,
            g: 128,
            b: 0,
            a: 255_000,
        },
    },
    Keyword {
        word: b"orange",
        value: Rgba {
            r: 255,
            g: 165,
            b: 0,
            a: 255_000,
        },
    },
    Keyword {
        word: b"purple",
        value: Rgba {
            r: 128,
            g: 0,
            b: 128,
            a: 255_000,
        },
    },
    Keyword {
        word: b"red",
        value: Rgba {
            r: 255,
            g: 0,
            b: 0,
            a: 255_000,
        },
    },
    Keyword {
        word: b"silver",
        value: Rgba {
            r: 192,
            g: 192,
            b: 192,
            a: 255_000,
        },
    },
    Keyword {
        word: b"teal",
        value: Rgba {
            r: 0,
            g: 128,
            b: 128,
            a: 255_000,
        },
    },
    Keyword {
        word: b"transparent",
        value: Rgba {
            r: 0,
            g: 0,
            b: 0,
            a: 0,
        },
    },
    Keyword {
        word: b"white",
        value: Rgba {
            r: 255,
            g: 255,
            b: 255,
            a: 255_000,
        },
    },
    Keyword {
        word: b"yellow",
        value: Rgba {
            r: 255,
            g: 255,
            b: 0,
            a: 255_000,
        },
    },
];

/// The colour of this name.
pub fn colour_named(bytes: &[u8]) -> Option<Rgba>
    ensures { result ≡ lookup colour_names bytes.now }
{
    find(&COLOURS, bytes)
}
