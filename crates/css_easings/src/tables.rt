// The tables of words for easings.
ghost use Rattle.std.specs.Prelude.{◌≡◌, map};
ghost use Rattle.css_easings.specs.EasingWords.{easing_words, jump_words};
ghost use Rattle.css_words.specs.Keywords.{lookup};

use css_words::{Keyword, find};
use page_model::{Easing, Jump};

static EASINGS: [Keyword<Easing>; 7] = [
    Keyword {
        word: b"linear",
        value: Easing::Linear,
    },
    Keyword {
        word: b"ease",
        value: Easing::Cubic {
            x1: 250,
            y1: 100,
            x2: 250,
            y2: 1000,
        },
    },
    Keyword {
        word: b"ease-in",
        value: Easing::Cubic {
            x1: 420,
            y1: 0,
            x2: 1000,
            y2: 1000,
        },
    },
    Keyword {
        word: b"ease-out",
        value: Easing::Cubic {
            x1: 0,
            y1: 0,
            x2: 580,
            y2: 1000,
        },
    },
    Keyword {
        word: b"ease-in-out",
        value: Easing::Cubic {
            x1: 420,
            y1: 0,
            x2: 580,
            y2: 1000,
        },
    },
    Keyword {
        word: b"step-start",
        value: Easing::Steps {
            count: 1,
            jump: Jump::Start,
        },
    },
    Keyword {
        word: b"step-end",
        value: Easing::Steps {
            count: 1,
            jump: Jump::End,
        },
    },
];

static JUMPS: [Keyword<Jump>; 6] = [
    Keyword {
        word: b"jump-start",
        value: Jump::Start,
    },
    Keyword {
        word: b"jump-end",
        value: Jump::End,
    },
    Keyword {
        word: b"jump-none",
        value: Jump::Neither,
    },
    Keyword {
        word: b"jump-both",
        value: Jump::Both,
    },
    Keyword {
        word: b"start",
        value: Jump::Start,
    },
    Keyword {
        word: b"end",
        value: Jump::End,
    },
];

/// The easing of this name.
pub fn easing_named(bytes: &[u8]) -> Option<Easing>
    ensures { result ≡ lookup easing_words bytes.now }
{
    find(&EASINGS, bytes)
}

/// Where a step easing jumps.
pub fn jump_named(bytes: &[u8]) -> Option<Jump>
    ensures { result ≡ lookup jump_words bytes.now }
{
    find(&JUMPS, bytes)
}
