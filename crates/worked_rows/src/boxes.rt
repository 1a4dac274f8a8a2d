// Pages that the judge judges, and that are no lamps of one animation: boxes that flash, and bodies of one animation.
use flash_top::Status;
use row_runs::{CHECK, Page, Row};

/// Boxes that are black for an eighth of a second and white for another, twenty times.
const FLASH: &str =
    ".b{position:absolute;background-color:#000000;animation:f 250ms steps(1) 20}@keyframes f{0%{background-color:#000000}50%{background-color:#ffffff}}";

pub const BOXES: [Row; 4] = [
    Row {
        shows: "a_quarter_of_the_rectangle_passes",
        page: Page::Styled(
            FLASH,
            "<div class=\"b\" style=\"left:0px;top:0px;width:176px;height:124px\"></div>",
        ),
        words: CHECK,
        status: Status::Pass,
        text: "pass: frames 301\n",
    },
    Row {
        shows: "more_than_a_quarter_fails",
        page: Page::Styled(
            FLASH,
            "<div class=\"b\" style=\"left:0px;top:0px;width:176px;height:125px\"></div>",
        ),
        words: CHECK,
        status: Status::Bad,
        text: "{\"area\":22000,\"height\":768,\"parts\":[{\"frames\":[0,8,15,23,30,38,45,53,60],\"height\":125,\"kind\":\"general\",\"tints\":[\"000000\",\"ffffff\",\"000000\",\"ffffff\",\"000000\",\"ffffff\",\"000000\",\"ffffff\",\"000000\"],\"width\":176,\"x\":0,\"y\":0}],\"rate\":60,\"start\":0,\"verdict\":\"fail\",\"version\":1,\"width\":1024,\"x\":0,\"y\":0}\n",
    },
    Row {
        shows: "two_boxes_far_apart_pass",
        page: Page::Styled(
            FLASH,
            "<div class=\"b\" style=\"left:100px;top:300px;width:140px;height:140px\"></div><div class=\"b\" style=\"left:640px;top:300px;width:140px;height:140px\"></div>",
        ),
        words: CHECK,
        status: Status::Pass,
        text: "pass: frames 301\n",
    },
    Row {
        shows: "two_boxes_side_by_side_fail",
        page: Page::Styled(
            FLASH,
            "<div class=\"b\" style=\"left:300px;top:300px;width:140px;height:140px\"></div><div class=\"b\" style=\"left:440px;top:300px;width:140px;height:140px\"></div>",
        ),
        words: CHECK,
        status: Status::Bad,
        text: "{\"area\":39200,\"height\":768,\"parts\":[{\"frames\":[0,8,15,23,30,38,45,53,60],\"height\":140,\"kind\":\"general\",\"tints\":[\"000000\",\"ffffff\",\"000000\",\"ffffff\",\"000000\",\"ffffff\",\"000000\",\"ffffff\",\"000000\"],\"width\":140,\"x\":300,\"y\":300},{\"frames\":[0,8,15,23,30,38,45,53,60],\"height\":140,\"kind\":\"general\",\"tints\":[\"000000\",\"ffffff\",\"000000\",\"ffffff\",\"000000\",\"ffffff\",\"000000\",\"ffffff\",\"000000\"],\"width\":140,\"x\":440,\"y\":300}],\"rate\":60,\"start\":0,\"verdict\":\"fail\",\"version\":1,\"width\":1024,\"x\":239,\"y\":184}\n",
    },
];

pub const BODIES: [Row; 3] = [
    Row {
        shows: "important_beats_animation",
        page: Page::Styled(
            "body{background-color:#000000 !important;animation:f 250ms steps(1) 20}@keyframes f{0%{background-color:#000000}50%{background-color:#ffffff}}",
            "",
        ),
        words: CHECK,
        status: Status::Pass,
        text: "pass: frames 301\n",
    },
    Row {
        shows: "no_duration_is_over_at_once",
        page: Page::Styled(
            "body{background-color:#000000;animation:f 0s steps(1) infinite forwards}@keyframes f{0%{background-color:#000000}50%{background-color:#ffffff}}",
            "",
        ),
        words: CHECK,
        status: Status::Pass,
        text: "pass: frames 1\n",
    },
    Row {
        shows: "a_slow_fade_passes",
        page: Page::Styled(
            "body{background-color:#000000;animation:f 1s linear 1.5 alternate forwards}@keyframes f{from{background-color:#000000}to{background-color:#ffffff}}",
            "",
        ),
        words: CHECK,
        status: Status::Pass,
        text: "pass: frames 91\n",
    },
];
