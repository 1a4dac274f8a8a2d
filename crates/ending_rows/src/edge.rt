// Files that aren't there, or have no byte.
use flash_top::Status;
use row_runs::{CHECK, Page, Row};

/// The words of which the witness isn't there.
const VERIFY: &str = "verify p w 1024x768 60";

/// A file of a witness that isn't there is opened only where the page is judged.
pub const MISSING: [Row; 5] = [
    Row {
        shows: "no_byte",
        page: Page::Whole(b""),
        words: CHECK,
        status: Status::Page,
        text: "page: bad text at 0\n",
    },
    Row {
        shows: "no_file",
        page: Page::Whole(b""),
        words: "check q 1024x768 60",
        status: Status::ReadFault,
        text: "cannot read\n",
    },
    Row {
        shows: "no_page",
        page: Page::Whole(b"<!DOCTYPE html><html><head></head><body><p></p></body></html>"),
        words: VERIFY,
        status: Status::Page,
        text: "page: bad text at 40\n",
    },
    Row {
        shows: "box_without_a_place",
        page: Page::Styled("", "<div></div>"),
        words: VERIFY,
        status: Status::Page,
        text: "page: element 1 is not placed\n",
    },
    Row {
        shows: "page_that_is_judged",
        page: Page::Whole(b"<!DOCTYPE html><html><head></head><body></body></html>"),
        words: VERIFY,
        status: Status::ReadFault,
        text: "cannot read\n",
    },
];
