// Style text and elements that are refused, and pages on which nothing is animated.
use flash_top::Status;
use row_runs::{CHECK, Page, Row};

pub const SHEETS: [Row; 10] = [
    Row {
        shows: "comment_that_nothing_ends",
        page: Page::Styled("/* x", ""),
        words: CHECK,
        status: Status::Page,
        text: "page: bad sheet at 34\n",
    },
    Row {
        shows: "property_that_is_unknown",
        page: Page::Styled(".a{border-radius:3px}", ""),
        words: CHECK,
        status: Status::Page,
        text: "page: unknown property at 37\n",
    },
    Row {
        shows: "offset_of_too_many_places",
        page: Page::Styled("@keyframes f{33.333%{opacity:0}}", ""),
        words: CHECK,
        status: Status::Page,
        text: "page: bad value at 47\n",
    },
    Row {
        shows: "offset_that_stands_twice",
        page: Page::Styled("@keyframes f{50%{opacity:0}50%{opacity:1}}", ""),
        words: CHECK,
        status: Status::Page,
        text: "page: bad keyframes at 61\n",
    },
    Row {
        shows: "length_over_the_limit",
        page: Page::Styled(".a{left:9000px}", ""),
        words: CHECK,
        status: Status::Page,
        text: "page: over a limit at 42\n",
    },
    Row {
        shows: "box_without_a_place",
        page: Page::Styled("", "<div></div>"),
        words: CHECK,
        status: Status::Page,
        text: "page: element 1 is not placed\n",
    },
    Row {
        shows: "body_that_may_not_be_seen_through",
        page: Page::Styled("body{opacity:1}", ""),
        words: CHECK,
        status: Status::Page,
        text: "page: body has a property that it may not have\n",
    },
    // A fault of the style text comes before one of a style attribute, which comes before one of an element.
    Row {
        shows: "style_text_before_style_attribute",
        page: Page::Styled("a{x:y}", "<div style=\"left:1em\"></div>"),
        words: CHECK,
        status: Status::Page,
        text: "page: unknown property at 36\n",
    },
    Row {
        shows: "style_attribute_before_element",
        page: Page::Styled("", "<div></div><div style=\"left:1em\"></div>"),
        words: CHECK,
        status: Status::Page,
        text: "page: bad value at 83\n",
    },
    Row {
        shows: "first_style_attribute",
        page: Page::Styled(
            "",
            "<div style=\"left:1em\"></div><div style=\"top:1em\"></div>",
        ),
        words: CHECK,
        status: Status::Page,
        text: "page: bad value at 72\n",
    },
];

pub const STILL: [Row; 2] = [
    Row {
        shows: "empty_page",
        page: Page::Styled("", ""),
        words: CHECK,
        status: Status::Pass,
        text: "pass: frames 1\n",
    },
    Row {
        shows: "coloured_box",
        page: Page::Styled(
            ".b{position:absolute;left:0px;top:0px;width:100px;height:100px;background-color:#ff0000}",
            "<div class=\"b\"></div>",
        ),
        words: CHECK,
        status: Status::Pass,
        text: "pass: frames 1\n",
    },
];
