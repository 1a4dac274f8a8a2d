// Pages that are refused, and the places where bytes cease to be a page.
use flash_top::Status;
use row_runs::{CHECK, Page, Row};

pub const PAGES: [Row; 10] = [
    Row {
        shows: "style_text_that_nothing_ends",
        page: Page::Whole(b"<!DOCTYPE html><html><head><style>body{/* x"),
        words: CHECK,
        status: Status::Page,
        text: "page: bad text at 34\n",
    },
    Row {
        shows: "comment_at_the_front_of_style_text",
        page: Page::Whole(
            b"<!DOCTYPE html><html><head><style><!-- x --></style></head><body></body></html>",
        ),
        words: CHECK,
        status: Status::Page,
        text: "page: bad text at 34\n",
    },
    Row {
        shows: "comment_behind_style_text",
        page: Page::Whole(
            b"<!DOCTYPE html><html><head><style>a{}<!-- x --></style></head><body></body></html>",
        ),
        words: CHECK,
        status: Status::Page,
        text: "page: bad text at 37\n",
    },
    Row {
        shows: "doctype_behind_style_text",
        page: Page::Whole(
            b"<!DOCTYPE html><html><head><style>a{}<!DOCTYPE html></style></head><body></body></html>",
        ),
        words: CHECK,
        status: Status::Page,
        text: "page: bad text at 37\n",
    },
    Row {
        shows: "opening_behind_style_text",
        page: Page::Whole(
            b"<!DOCTYPE html><html><head><style>a{}<b></style></head><body></body></html>",
        ),
        words: CHECK,
        status: Status::Page,
        text: "page: bad text at 37\n",
    },
    Row {
        shows: "comment_behind_a_title",
        page: Page::Whole(
            b"<!DOCTYPE html><html><head><title>a<!-- x --></title></head><body></body></html>",
        ),
        words: CHECK,
        status: Status::Page,
        text: "page: bad text at 35\n",
    },
    Row {
        shows: "no_utf8",
        page: Page::Whole(
            b"<!DOCTYPE html><html><head><style>\xc3\xa4\xff</style></head><body></body></html>",
        ),
        words: CHECK,
        status: Status::Page,
        text: "page: bad text at 36\n",
    },
    Row {
        shows: "box_that_is_not_closed",
        page: Page::Whole(
            b"<!DOCTYPE html><html><head></head><body><div><p></p></div></body></html>",
        ),
        words: CHECK,
        status: Status::Page,
        text: "page: bad text at 45\n",
    },
    Row {
        shows: "as_many_boxes_as_there_may_be",
        page: Page::Boxes(64),
        words: CHECK,
        status: Status::Page,
        text: "page: element 1 is not placed\n",
    },
    Row {
        shows: "one_box_too_many",
        page: Page::Boxes(65),
        words: CHECK,
        status: Status::Page,
        text: "page: more than 64 boxes\n",
    },
];
