// Colours with alpha: how they are written, painted and interpolated.
use flash_top::Status;
use row_runs::{CHECK, Page, Row};

/// The tint of the first pixel in the first frame.
const FIRST: &str = "tint p 1024x768 60 0 0 0";

/// A box that isn't seen, on a black page.
const UNSEEN: Page = Page::Styled(
    "body{background-color:#000000}.b{position:absolute;left:0px;top:0px;width:10px;height:10px;background-color:TransParent}",
    "<div class=\"b\"></div>",
);

/// A box that is black for an eighth of a second and isn't seen for another, for ever.
const COMES_AND_GOES: Page = Page::Styled(
    ".b{position:absolute;background-color:#000000;animation:f 250ms steps(1) infinite}@keyframes f{0%{background-color:#000000}50%{background-color:transparent}}",
    "<div class=\"b\" style=\"left:0px;top:0px;width:176px;height:125px\"></div>",
);

/// A box that comes into sight as red, once a second.
const FADES: Page = Page::Coloured("#ffffff", "animation:f 1s linear infinite");

pub const ALPHA: [Row; 14] = [
    Row {
        shows: "half_a_red",
        page: Page::Coloured("rgba(255,0,0,0.5)", ""),
        words: FIRST,
        status: Status::Pass,
        text: "#ff7f7f\n",
    },
    Row {
        shows: "half_a_red_at_half_the_opacity",
        page: Page::Coloured("rgba(255,0,0,0.5)", "opacity:0.5"),
        words: FIRST,
        status: Status::Pass,
        text: "#ffbfbf\n",
    },
    Row {
        shows: "eight_digits",
        page: Page::Coloured("#00000080", ""),
        words: FIRST,
        status: Status::Pass,
        text: "#7f7f7f\n",
    },
    Row {
        shows: "eight_digits_of_blue",
        page: Page::Coloured("#0000ff80", ""),
        words: FIRST,
        status: Status::Pass,
        text: "#7f7fff\n",
    },
    Row {
        shows: "four_digits",
        page: Page::Coloured("#f008", ""),
        words: FIRST,
        status: Status::Pass,
        text: "#ff7777\n",
    },
    Row {
        shows: "four_numbers_in_rgb",
        page: Page::Coloured("rgb(255,0,0,.25)", ""),
        words: FIRST,
        status: Status::Pass,
        text: "#ffbfbf\n",
    },
    Row {
        shows: "three_numbers_in_rgba",
        page: Page::Coloured("RGBA(1,2,300)", ""),
        words: FIRST,
        status: Status::Pass,
        text: "#0102ff\n",
    },
    Row {
        shows: "alpha_over_1",
        page: Page::Coloured("rgba(255,0,0,2)", ""),
        words: FIRST,
        status: Status::Pass,
        text: "#ff0000\n",
    },
    Row {
        shows: "alpha_below_0",
        page: Page::Coloured("rgba(255,0,0,-1)", ""),
        words: FIRST,
        status: Status::Pass,
        text: "#ffffff\n",
    },
    Row {
        shows: "transparent_in_any_case",
        page: UNSEEN,
        words: FIRST,
        status: Status::Pass,
        text: "#000000\n",
    },
    Row {
        shows: "nothing_is_seen_at_first",
        page: FADES,
        words: FIRST,
        status: Status::Pass,
        text: "#ffffff\n",
    },
    Row {
        shows: "half_way_the_channel_is_full",
        page: FADES,
        words: "tint p 1024x768 60 30 0 0",
        status: Status::Pass,
        text: "#ff7f7f\n",
    },
    Row {
        shows: "a_fade_passes",
        page: FADES,
        words: CHECK,
        status: Status::Pass,
        text: "pass: frames 60\n",
    },
    Row {
        shows: "what_comes_and_goes_fails",
        page: COMES_AND_GOES,
        words: CHECK,
        status: Status::Bad,
        text: "{\"area\":22000,\"height\":768,\"parts\":[{\"frames\":[0,8,15,23,30,38,45,53,60],\"height\":125,\"kind\":\"general\",\"tints\":[\"000000\",\"ffffff\",\"000000\",\"ffffff\",\"000000\",\"ffffff\",\"000000\",\"ffffff\",\"000000\"],\"width\":176,\"x\":0,\"y\":0}],\"rate\":60,\"start\":0,\"verdict\":\"fail\",\"version\":1,\"width\":1024,\"x\":0,\"y\":0}\n",
    },
];

/// Values that are no colours.
pub const NO_COLOURS: [Row; 10] = [
    Row {
        shows: "alpha_in_percent",
        page: Page::Coloured("rgba(1,2,3,50%)", ""),
        words: CHECK,
        status: Status::Page,
        text: "page: bad value at 112\n",
    },
    Row {
        shows: "number_with_a_sign",
        page: Page::Coloured("rgba(+1,2,3)", ""),
        words: CHECK,
        status: Status::Page,
        text: "page: bad value at 112\n",
    },
    Row {
        shows: "number_below_0",
        page: Page::Coloured("rgba(1,-2,3)", ""),
        words: CHECK,
        status: Status::Page,
        text: "page: bad value at 112\n",
    },
    Row {
        shows: "four_numbers_with_a_point",
        page: Page::Coloured("rgba(1,2.5,3,0.5)", ""),
        words: CHECK,
        status: Status::Page,
        text: "page: bad value at 112\n",
    },
    Row {
        shows: "five_digits",
        page: Page::Coloured("#12345", ""),
        words: CHECK,
        status: Status::Page,
        text: "page: bad value at 112\n",
    },
    Row {
        shows: "seven_digits",
        page: Page::Coloured("#1234567", ""),
        words: CHECK,
        status: Status::Page,
        text: "page: bad value at 112\n",
    },
    Row {
        shows: "alpha_of_four_decimals",
        page: Page::Coloured("rgba(1,2,3,0.1234)", ""),
        words: CHECK,
        status: Status::Page,
        text: "page: bad value at 112\n",
    },
    Row {
        shows: "alpha_with_a_unit",
        page: Page::Coloured("rgba(1,2,3,1px)", ""),
        words: CHECK,
        status: Status::Page,
        text: "page: bad value at 112\n",
    },
    Row {
        shows: "five_numbers",
        page: Page::Coloured("rgba(1,2,3,1,1)", ""),
        words: CHECK,
        status: Status::Page,
        text: "page: bad value at 112\n",
    },
    Row {
        shows: "comma_without_an_alpha",
        page: Page::Coloured("rgba(1,2,3,)", ""),
        words: CHECK,
        status: Status::Page,
        text: "page: bad value at 112\n",
    },
];
