// The last value that a limit allows, and the first that it doesn't.
use flash_top::Status;
use row_runs::{CHECK, Page, Row};

/// A page that says nothing of itself, and passes.
const ALLOWED: Row = Row {
    shows: "",
    page: Page::Styled("", ""),
    words: CHECK,
    status: Status::Pass,
    text: "pass: frames 1\n",
};

/// A page that is refused.
const REFUSED: Row = Row {
    shows: "",
    page: Page::Styled("", ""),
    words: CHECK,
    status: Status::Page,
    text: "",
};

pub const LIMITS: [Row; 20] = [
    Row {
        shows: "left:8192px",
        page: Page::Styled(".a{left:8192px}", ""),
        ..ALLOWED
    },
    Row {
        shows: "left:8192.01px",
        page: Page::Styled(".a{left:8192.01px}", ""),
        text: "page: over a limit at 42\n",
        ..REFUSED
    },
    Row {
        shows: "width:8192px",
        page: Page::Styled(".a{width:8192px}", ""),
        ..ALLOWED
    },
    Row {
        shows: "width:8192.01px",
        page: Page::Styled(".a{width:8192.01px}", ""),
        text: "page: over a limit at 43\n",
        ..REFUSED
    },
    Row {
        shows: "animation-duration:100s",
        page: Page::Styled(".a{animation-duration:100s}", ""),
        ..ALLOWED
    },
    Row {
        shows: "animation-duration:100.001s",
        page: Page::Styled(".a{animation-duration:100.001s}", ""),
        text: "page: over a limit at 56\n",
        ..REFUSED
    },
    Row {
        shows: "animation-delay:-100s",
        page: Page::Styled(".a{animation-delay:-100s}", ""),
        ..ALLOWED
    },
    Row {
        shows: "animation-delay:-100.001s",
        page: Page::Styled(".a{animation-delay:-100.001s}", ""),
        text: "page: over a limit at 53\n",
        ..REFUSED
    },
    Row {
        shows: "animation-iteration-count:10000",
        page: Page::Styled(".a{animation-iteration-count:10000}", ""),
        ..ALLOWED
    },
    Row {
        shows: "animation-iteration-count:10000.001",
        page: Page::Styled(".a{animation-iteration-count:10000.001}", ""),
        text: "page: over a limit at 63\n",
        ..REFUSED
    },
    Row {
        shows: "animation-timing-function:steps(1000)",
        page: Page::Styled(".a{animation-timing-function:steps(1000)}", ""),
        ..ALLOWED
    },
    Row {
        shows: "animation-timing-function:steps(1001)",
        page: Page::Styled(".a{animation-timing-function:steps(1001)}", ""),
        text: "page: over a limit at 63\n",
        ..REFUSED
    },
    Row {
        shows: "animation-timing-function:cubic-bezier(0,4,1,-4)",
        page: Page::Styled(".a{animation-timing-function:cubic-bezier(0,4,1,-4)}", ""),
        ..ALLOWED
    },
    Row {
        shows: "animation-timing-function:cubic-bezier(0,4.001,1,-4)",
        page: Page::Styled(
            ".a{animation-timing-function:cubic-bezier(0,4.001,1,-4)}",
            "",
        ),
        text: "page: over a limit at 63\n",
        ..REFUSED
    },
    Row {
        shows: "z-index:1000000",
        page: Page::Styled(".a{z-index:1000000}", ""),
        ..ALLOWED
    },
    Row {
        shows: "z-index:1000001",
        page: Page::Styled(".a{z-index:1000001}", ""),
        text: "page: over a limit at 45\n",
        ..REFUSED
    },
    Row {
        shows: "64 boxes",
        page: Page::Placed(64),
        ..ALLOWED
    },
    Row {
        shows: "65 boxes",
        page: Page::Placed(65),
        text: "page: more than 64 boxes\n",
        ..REFUSED
    },
    Row {
        shows: "8 animation names",
        page: Page::Styled(
            "body{animation-name:a,b,c,d,e,f,g,h;background-color:#ffffff}",
            "",
        ),
        ..ALLOWED
    },
    Row {
        shows: "9 animation names",
        page: Page::Styled(
            "body{animation-name:a,b,c,d,e,f,g,h,i;background-color:#ffffff}",
            "",
        ),
        text: "page: more than 8 animations on element 0\n",
        ..REFUSED
    },
];

/// Values that no limit makes wrong.
pub const BAD_VALUES: [Row; 4] = [
    Row {
        shows: "width:-1px",
        page: Page::Styled(".a{width:-1px}", ""),
        text: "page: bad value at 43\n",
        ..REFUSED
    },
    Row {
        shows: "animation-timing-function:steps(0)",
        page: Page::Styled(".a{animation-timing-function:steps(0)}", ""),
        text: "page: bad value at 63\n",
        ..REFUSED
    },
    Row {
        shows: "animation-timing-function:steps(1,jump-none)",
        page: Page::Styled(".a{animation-timing-function:steps(1,jump-none)}", ""),
        text: "page: bad value at 63\n",
        ..REFUSED
    },
    Row {
        shows: "animation-timing-function:cubic-bezier(1.001,0,0,1)",
        page: Page::Styled(
            ".a{animation-timing-function:cubic-bezier(1.001,0,0,1)}",
            "",
        ),
        text: "page: bad value at 63\n",
        ..REFUSED
    },
];

/// The longest page there may be, and longer ones.
pub const LENGTHS: [Row; 3] = [
    Row {
        shows: "page_of_1048576_bytes",
        page: Page::Followed(1_048_507),
        ..ALLOWED
    },
    Row {
        shows: "one_space_more",
        page: Page::Followed(1_048_508),
        text: "page: too long\n",
        ..REFUSED
    },
    Row {
        shows: "one_space_too_many_and_no_page",
        page: Page::Spaces(1_048_577),
        text: "page: too long\n",
        ..REFUSED
    },
];
