// The tint of a pixel in a frame.
use flash_top::Status;
use row_runs::{Page, Row};

/// A black box with half its opacity, of which half a column is left of the viewport.
const HALF: &str =
    ".b{position:absolute;background-color:#000000;left:-10.5px;top:0px;width:20px;height:20px;opacity:0.5}";

/// A body of three colours, one after the other.
const STEPS: &str =
    "body{background-color:#000000;animation:f 900ms steps(3,jump-none) forwards}@keyframes f{from{background-color:#000000}to{background-color:#ffffff}}";

/// A box that moves.
const MOVING: &str =
    ".b{position:absolute;background-color:#000000;left:10px;top:10px;width:20px;height:20px;animation:m 2s linear infinite alternate}@keyframes m{to{left:11px}}";

/// A body that is eased to white, by the curve that is meant where none is named.
const EASED: &str =
    "body{background-color:#000000;animation:f 1s infinite}@keyframes f{to{background-color:#ffffff}}";

/// A body that is eased to black, half way of which it is half a channel from two colours.
const DARKENED: &str =
    "body{background-color:#ffffff;animation:f 1s ease-in-out infinite}@keyframes f{to{background-color:#000000}}";

/// A body whose animation has no duration, and so is over at once.
const AT_ONCE: &str =
    "body{background-color:#000000;animation:f 0s steps(1) infinite forwards}@keyframes f{0%{background-color:#000000}50%{background-color:#ffffff}}";

/// A body that fades to white and half way back, and stays there.
const FADE: &str =
    "body{background-color:#000000;animation:f 1s linear 1.5 alternate forwards}@keyframes f{from{background-color:#000000}to{background-color:#ffffff}}";

const ONE_BOX: &str = "<div class=\"b\"></div>";

pub const TINTS: [Row; 15] = [
    Row {
        shows: "half_a_column_is_covered",
        page: Page::Styled(HALF, ONE_BOX),
        words: "tint p 1024x768 60 0 9 0",
        status: Status::Pass,
        text: "#7f7f7f\n",
    },
    Row {
        shows: "behind_the_box",
        page: Page::Styled(HALF, ONE_BOX),
        words: "tint p 1024x768 60 0 10 0",
        status: Status::Pass,
        text: "#ffffff\n",
    },
    Row {
        shows: "first_of_three_steps",
        page: Page::Styled(STEPS, ""),
        words: "tint p 1024x768 60 17 0 0",
        status: Status::Pass,
        text: "#000000\n",
    },
    Row {
        shows: "second_of_three_steps",
        page: Page::Styled(STEPS, ""),
        words: "tint p 1024x768 60 18 0 0",
        status: Status::Pass,
        text: "#808080\n",
    },
    Row {
        shows: "third_of_three_steps",
        page: Page::Styled(STEPS, ""),
        words: "tint p 1024x768 60 36 1023 767",
        status: Status::Pass,
        text: "#ffffff\n",
    },
    Row {
        shows: "over_at_once",
        page: Page::Styled(AT_ONCE, ""),
        words: "tint p 1024x768 60 0 0 0",
        status: Status::Pass,
        text: "#000000\n",
    },
    Row {
        shows: "over_at_once_later",
        page: Page::Styled(AT_ONCE, ""),
        words: "tint p 1024x768 60 7 0 0",
        status: Status::Pass,
        text: "#000000\n",
    },
    Row {
        shows: "half_way_back_is_near",
        page: Page::Styled(FADE, ""),
        words: "tint p 1024x768 60 75 0 0",
        status: Status::Pass,
        text: "#bfbfbf\n",
    },
    Row {
        shows: "half_way_back",
        page: Page::Styled(FADE, ""),
        words: "tint p 1024x768 60 90 0 0",
        status: Status::Pass,
        text: "#808080\n",
    },
    Row {
        shows: "half_way_back_for_ever",
        page: Page::Styled(FADE, ""),
        words: "tint p 1024x768 60 4000000000 0 0",
        status: Status::Pass,
        text: "#808080\n",
    },
    Row {
        shows: "moving_boxes_are_painted",
        page: Page::Styled(MOVING, ONE_BOX),
        words: "tint p 1024x768 60 0 10 10",
        status: Status::Pass,
        text: "#000000\n",
    },
    Row {
        shows: "half_way_of_a_curve",
        page: Page::Styled(EASED, ""),
        words: "tint p 1024x768 60 30 0 0",
        status: Status::Pass,
        text: "#cdcdcd\n",
    },
    Row {
        shows: "curve_between_two_colours",
        page: Page::Styled(DARKENED, ""),
        words: "tint p 1024x768 60 30 0 0",
        status: Status::Pass,
        text: "#7f7f7f-#808080\n",
    },
    Row {
        shows: "column_outside",
        page: Page::Styled(HALF, ONE_BOX),
        words: "tint p 1024x768 60 0 1024 0",
        status: Status::Words,
        text: "words: not understood\n",
    },
    Row {
        shows: "frame_outside",
        page: Page::Styled(HALF, ONE_BOX),
        words: "tint p 1024x768 60 4294967296 9 0",
        status: Status::Words,
        text: "words: not understood\n",
    },
];
