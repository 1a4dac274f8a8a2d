// The table of properties.
ghost use Rattle.std.specs.Prelude.{◌≡◌, map};
ghost use Rattle.css_values.specs.PropertyNames.{property_names};
ghost use Rattle.css_words.specs.Keywords.{lookup};

use crate::types::Property;
use css_words::{Keyword, find};

static PROPERTIES: [Keyword<Property>; 21] = [
    Keyword {
        word: b"position",
        value: Property::Position,
    },
    Keyword {
        word: b"left",
        value: Property::Left,
    },
    Keyword {
        word: b"top",
        value: Property::Top,
    },
    Keyword {
        word: b"width",
        value: Property::Width,
    },
    Keyword {
        word: b"height",
        value: Property::Height,
    },
    Keyword {
        word: b"background-color",
        value: Property::BackgroundColor,
    },
    Keyword {
        word: b"background",
        value: Property::Background,
    },
    Keyword {
        word: b"opacity",
        value: Property::Opacity,
    },
    Keyword {
        word: b"visibility",
        value: Property::Visibility,
    },
    Keyword {
        word: b"z-index",
        value: Property::ZIndex,
    },
    Keyword {
        word: b"margin",
        value: Property::Margin,
    },
    Keyword {
        word: b"padding",
        value: Property::Padding,
    },
    Keyword {
        word: b"animation-name",
        value: Property::AnimationName,
    },
    Keyword {
        word: b"animation-duration",
        value: Property::AnimationDuration,
    },
    Keyword {
        word: b"animation-delay",
        value: Property::AnimationDelay,
    },
    Keyword {
        word: b"animation-timing-function",
        value: Property::AnimationTimingFunction,
    },
    Keyword {
        word: b"animation-iteration-count",
        value: Property::AnimationIterationCount,
    },
    Keyword {
        word: b"animation-direction",
        value: Property::AnimationDirection,
    },
    Keyword {
        word: b"animation-fill-mode",
        value: Property::AnimationFillMode,
    },
    Keyword {
        word: b"animation-play-state",
        value: Property::AnimationPlayState,
    },
    Keyword {
        word: b"animation",
        value: Property::Animation,
    },
];

/// The property of this name, in any case; `None` exactly where none of the 21 properties has it.
pub fn property(bytes: &[u8]) -> Option<Property>
    ensures { result ≡ lookup property_names bytes.now }
{
    find(&PROPERTIES, bytes)
}
