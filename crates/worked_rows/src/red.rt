// Red flashes.
use flash_top::Status;
use row_runs::{CHECK, Page, Row, Verified};

/// Red and green of nearly the same luminance.
const RED_AND_GREEN: Page = Page::Lamp("#ff0000", "#008000", "250ms steps(1) 20");

const RED: &str =
    r#"{"area":87296,"height":768,"parts":[{"frames":[0,8,15,23,30,38,45,53,60],"height":256,"kind":"red","tints":["ff0000","008000","ff0000","008000","ff0000","008000","ff0000","008000","ff0000"],"width":341,"x":0,"y":0}],"rate":60,"start":0,"verdict":"fail","version":1,"width":1024,"x":0,"y":0}
"#;

/// The same changes, told as those of luminance.
const TOLD_AS_GENERAL: &str =
    r#"{"area":87296,"height":768,"parts":[{"frames":[0,8,15,23,30,38,45,53,60],"height":256,"kind":"general","tints":["ff0000","008000","ff0000","008000","ff0000","008000","ff0000","008000","ff0000"],"width":341,"x":0,"y":0}],"rate":60,"start":0,"verdict":"fail","version":1,"width":1024,"x":0,"y":0}
"#;

/// Seven changes: the last two tints are the same.
const SEVEN: &str =
    r#"{"area":87296,"height":768,"parts":[{"frames":[0,8,15,23,30,38,45,53,54],"height":256,"kind":"red","tints":["ff0000","008000","ff0000","008000","ff0000","008000","ff0000","008000","008000"],"width":341,"x":0,"y":0}],"rate":60,"start":0,"verdict":"fail","version":1,"width":1024,"x":0,"y":0}
"#;

const GENERAL: &str =
    r#"{"area":87296,"height":768,"parts":[{"frames":[0,8,15,23,30,38,45,53,60],"height":256,"kind":"general","tints":["ff0000","000000","ff0000","000000","ff0000","000000","ff0000","000000","ff0000"],"width":341,"x":0,"y":0}],"rate":60,"start":0,"verdict":"fail","version":1,"width":1024,"x":0,"y":0}
"#;

pub const REDS: [Row; 3] = [
    Row {
        shows: "red_and_green_fail_by_red",
        page: RED_AND_GREEN,
        words: CHECK,
        status: Status::Bad,
        text: RED,
    },
    Row {
        shows: "red_and_black_fail_by_luminance",
        page: Page::Lamp("#ff0000", "#000000", "250ms steps(1) 20"),
        words: CHECK,
        status: Status::Bad,
        text: GENERAL,
    },
    Row {
        shows: "nearly_black_and_black_pass",
        page: Page::Lamp("#010101", "#000000", "250ms steps(1) 20"),
        words: CHECK,
        status: Status::Pass,
        text: "pass: frames 301\n",
    },
];

pub const RED_WITNESSES: [Verified; 3] = [
    Verified {
        shows: "red_witness_is_accepted",
        page: RED_AND_GREEN,
        words: "verify p w 1024x768 60",
        witness: RED,
        status: Status::Pass,
        text: "accepted: start 0, area 87296\n",
    },
    Verified {
        shows: "red_changes_are_none_of_luminance",
        page: RED_AND_GREEN,
        words: "verify p w 1024x768 60",
        witness: TOLD_AS_GENERAL,
        status: Status::Bad,
        text: "refused: condition 9\n",
    },
    Verified {
        shows: "seven_red_changes",
        page: RED_AND_GREEN,
        words: "verify p w 1024x768 60",
        witness: SEVEN,
        status: Status::Bad,
        text: "refused: condition 9\n",
    },
];
