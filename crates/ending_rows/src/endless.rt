// Pages whose animations never end.
use flash_top::Status;
use row_runs::{CHECK, Page, Row, Verified};

/// Boxes that are black for an eighth of a second and white for another, for ever.
const FLASH: &str =
    ".b{position:absolute;background-color:#000000;animation:f 250ms steps(1) infinite}@keyframes f{0%{background-color:#000000}50%{background-color:#ffffff}}";

/// A body that begins to do so after ninety seconds.
const LATE_LAMP: &str =
    "body{background-color:#000000;animation:f 250ms steps(1) 90s infinite}@keyframes f{0%{background-color:#000000}50%{background-color:#ffffff}}";

/// The witness of that.
const LATE_WITNESS: &str =
    "{\"area\":87296,\"height\":768,\"parts\":[{\"frames\":[5400,5408,5415,5423,5430,5438,5445,5453,5460],\"height\":256,\"kind\":\"general\",\"tints\":[\"000000\",\"ffffff\",\"000000\",\"ffffff\",\"000000\",\"ffffff\",\"000000\",\"ffffff\",\"000000\"],\"width\":341,\"x\":0,\"y\":0}],\"rate\":60,\"start\":5400,\"verdict\":\"fail\",\"version\":1,\"width\":1024,\"x\":0,\"y\":0}\n";

pub const ENDLESS: [Row; 9] = [
    Row {
        shows: "a_quarter_of_the_rectangle_passes",
        page: Page::Styled(
            FLASH,
            "<div class=\"b\" style=\"left:0px;top:0px;width:176px;height:124px\"></div>",
        ),
        words: CHECK,
        status: Status::Pass,
        text: "pass: frames 15\n",
    },
    Row {
        shows: "more_than_a_quarter_fails",
        page: Page::Styled(
            FLASH,
            "<div class=\"b\" style=\"left:0px;top:0px;width:176px;height:125px\"></div>",
        ),
        words: CHECK,
        status: Status::Bad,
        text: "{\"area\":22000,\"height\":768,\"parts\":[{\"frames\":[0,8,15,23,30,38,45,53,60],\"height\":125,\"kind\":\"general\",\"tints\":[\"000000\",\"ffffff\",\"000000\",\"ffffff\",\"000000\",\"ffffff\",\"000000\",\"ffffff\",\"000000\"],\"width\":176,\"x\":0,\"y\":0}],\"rate\":60,\"start\":0,\"verdict\":\"fail\",\"version\":1,\"width\":1024,\"x\":0,\"y\":0}\n",
    },
    Row {
        shows: "two_boxes_far_apart_pass",
        page: Page::Styled(
            FLASH,
            "<div class=\"b\" style=\"left:100px;top:300px;width:140px;height:140px\"></div><div class=\"b\" style=\"left:640px;top:300px;width:140px;height:140px\"></div>",
        ),
        words: CHECK,
        status: Status::Pass,
        text: "pass: frames 15\n",
    },
    Row {
        shows: "two_boxes_side_by_side_fail",
        page: Page::Styled(
            FLASH,
            "<div class=\"b\" style=\"left:300px;top:300px;width:140px;height:140px\"></div><div class=\"b\" style=\"left:440px;top:300px;width:140px;height:140px\"></div>",
        ),
        words: CHECK,
        status: Status::Bad,
        text: "{\"area\":39200,\"height\":768,\"parts\":[{\"frames\":[0,8,15,23,30,38,45,53,60],\"height\":140,\"kind\":\"general\",\"tints\":[\"000000\",\"ffffff\",\"000000\",\"ffffff\",\"000000\",\"ffffff\",\"000000\",\"ffffff\",\"000000\"],\"width\":140,\"x\":300,\"y\":300},{\"frames\":[0,8,15,23,30,38,45,53,60],\"height\":140,\"kind\":\"general\",\"tints\":[\"000000\",\"ffffff\",\"000000\",\"ffffff\",\"000000\",\"ffffff\",\"000000\",\"ffffff\",\"000000\"],\"width\":140,\"x\":440,\"y\":300}],\"rate\":60,\"start\":0,\"verdict\":\"fail\",\"version\":1,\"width\":1024,\"x\":239,\"y\":184}\n",
    },
    Row {
        shows: "what_begins_after_ninety_seconds_fails",
        page: Page::Styled(LATE_LAMP, ""),
        words: CHECK,
        status: Status::Bad,
        text: LATE_WITNESS,
    },
    Row {
        shows: "there_and_back_takes_twice_as_long",
        page: Page::Styled(
            "body{background-color:#000000;animation:f 250ms steps(1) -125ms infinite alternate-reverse}@keyframes f{0%{background-color:#000000}50%{background-color:#ffffff}}",
            "",
        ),
        words: CHECK,
        status: Status::Pass,
        text: "pass: frames 30\n",
    },
    Row {
        shows: "a_paused_lamp_never_blinks",
        page: Page::Styled(
            "body{background-color:#000000;animation:f 250ms steps(1) infinite paused}@keyframes f{0%{background-color:#000000}50%{background-color:#ffffff}}",
            "",
        ),
        words: CHECK,
        status: Status::Pass,
        text: "pass: frames 1\n",
    },
    Row {
        shows: "a_lamp_that_ends_is_waited_for",
        page: Page::Styled(
            "body{background-color:#000000;animation:f 286ms steps(1) 20}@keyframes f{0%{background-color:#000000}50%{background-color:#ffffff}}",
            "",
        ),
        words: CHECK,
        status: Status::Pass,
        text: "pass: frames 345\n",
    },
    Row {
        shows: "three_rhythms_meet_in_twelve_seconds",
        page: Page::Styled(
            ".b{position:absolute;background-color:#000000;top:0px;width:50px;height:50px}.p{left:0px;animation:f 1s steps(1) infinite}.q{left:100px;animation:f 1500ms steps(1) infinite}.r{left:200px;animation:f 12s steps(1) infinite}@keyframes f{0%{background-color:#000000}50%{background-color:#ffffff}}",
            "<div class=\"b p\"></div><div class=\"b q\"></div><div class=\"b r\"></div>",
        ),
        words: CHECK,
        status: Status::Pass,
        text: "pass: frames 720\n",
    },
];

/// Boxes whose rhythms meet too late for all of them to be looked at together: they are looked at by regions.
pub const APART: [Row; 3] = [
    Row {
        shows: "two_boxes_that_one_rectangle_may_hold_pass",
        page: Page::Styled(
            ".b{position:absolute;background-color:#000000;top:0px;width:100px;height:100px}.p{left:0px;animation:f 197ms steps(1) infinite}.q{left:150px;animation:f 199ms steps(1) infinite}@keyframes f{0%{background-color:#000000}50%{background-color:#ffffff}}",
            "<div class=\"b p\"></div><div class=\"b q\"></div>",
        ),
        words: CHECK,
        status: Status::Pass,
        text: "pass: frames 597, regions apart\n",
    },
    Row {
        shows: "two_boxes_of_more_than_a_quarter_are_undecided",
        page: Page::Styled(
            ".b{position:absolute;background-color:#000000;top:0px;width:150px;height:150px}.p{left:0px;animation:f 197ms steps(1) infinite}.q{left:150px;animation:f 199ms steps(1) infinite}@keyframes f{0%{background-color:#000000}50%{background-color:#ffffff}}",
            "<div class=\"b p\"></div><div class=\"b q\"></div>",
        ),
        words: CHECK,
        status: Status::Undecided,
        text: "undecided: more than 100000 frames\n",
    },
    Row {
        shows: "three_small_boxes_pass",
        page: Page::Styled(
            ".b{position:absolute;background-color:#000000;top:0px;width:50px;height:50px}.p{left:0px;animation:f 997ms steps(1) infinite}.q{left:100px;animation:f 991ms steps(1) infinite}.r{left:200px;animation:f 983ms steps(1) infinite}@keyframes f{0%{background-color:#000000}50%{background-color:#ffffff}}",
            "<div class=\"b p\"></div><div class=\"b q\"></div><div class=\"b r\"></div>",
        ),
        words: CHECK,
        status: Status::Pass,
        text: "pass: frames 2991, regions apart\n",
    },
];

/// The late lamp's witness, tested.
pub const LATE: [Verified; 1] = [Verified {
    shows: "what_begins_after_ninety_seconds_is_accepted",
    page: Page::Styled(LATE_LAMP, ""),
    words: "verify p w 1024x768 60",
    witness: LATE_WITNESS,
    status: Status::Pass,
    text: "accepted: start 5400, area 87296\n",
}];
