// Lamps: pages of two greys, at the thresholds.
use flash_top::Status;
use row_runs::{BLACK_AND_WHITE, CHECK, Page, Row};

const BLACK_AND_GREY: &str =
    r#"{"area":87296,"height":768,"parts":[{"frames":[0,8,15,23,30,38,45,53,60],"height":256,"kind":"general","tints":["000000","5a5a5a","000000","5a5a5a","000000","5a5a5a","000000","5a5a5a","000000"],"width":341,"x":0,"y":0}],"rate":60,"start":0,"verdict":"fail","version":1,"width":1024,"x":0,"y":0}
"#;

const WHITE_AND_GREY: &str =
    r#"{"area":87296,"height":768,"parts":[{"frames":[0,8,15,23,30,38,45,53,60],"height":256,"kind":"general","tints":["ffffff","e7e7e7","ffffff","e7e7e7","ffffff","e7e7e7","ffffff","e7e7e7","ffffff"],"width":341,"x":0,"y":0}],"rate":60,"start":0,"verdict":"fail","version":1,"width":1024,"x":0,"y":0}
"#;

pub const LAMPS: [Row; 10] = [
    Row {
        shows: "black_white_lamp_fails",
        page: Page::Lamp("#000000", "#ffffff", "250ms steps(1) 20"),
        words: CHECK,
        status: Status::Bad,
        text: BLACK_AND_WHITE,
    },
    Row {
        shows: "slow_lamp_passes",
        page: Page::Lamp("#000000", "#ffffff", "286ms steps(1) 20"),
        words: CHECK,
        status: Status::Pass,
        text: "pass: frames 345\n",
    },
    Row {
        shows: "less_than_a_tenth_passes",
        page: Page::Lamp("#000000", "#595959", "250ms steps(1) 20"),
        words: CHECK,
        status: Status::Pass,
        text: "pass: frames 301\n",
    },
    Row {
        shows: "a_tenth_fails",
        page: Page::Lamp("#000000", "#5a5a5a", "250ms steps(1) 20"),
        words: CHECK,
        status: Status::Bad,
        text: BLACK_AND_GREY,
    },
    Row {
        shows: "darker_below_four_fifths_fails",
        page: Page::Lamp("#ffffff", "#e7e7e7", "250ms steps(1) 20"),
        words: CHECK,
        status: Status::Bad,
        text: WHITE_AND_GREY,
    },
    Row {
        shows: "darker_above_four_fifths_passes",
        page: Page::Lamp("#ffffff", "#e8e8e8", "250ms steps(1) 20"),
        words: CHECK,
        status: Status::Pass,
        text: "pass: frames 301\n",
    },
    Row {
        shows: "one_pixel_passes",
        page: Page::Lamp("#000000", "#ffffff", "250ms steps(1) 20"),
        words: "check p 1x1 60",
        status: Status::Pass,
        text: "pass: frames 301\n",
    },
    Row {
        shows: "less_than_a_quarter_passes",
        page: Page::Lamp("#000000", "#ffffff", "250ms steps(1) 20"),
        words: "check p 200x100 60",
        status: Status::Pass,
        text: "pass: frames 301\n",
    },
    Row {
        shows: "one_grey_passes",
        page: Page::Lamp("#000000", "#000000", "286ms steps(1) 20"),
        words: CHECK,
        status: Status::Pass,
        text: "pass: frames 345\n",
    },
    Row {
        shows: "too_many_frames_are_undecided",
        page: Page::Lamp("#000000", "#ffffff", "100000ms steps(1) 10000"),
        words: CHECK,
        status: Status::Undecided,
        text: "undecided: more than 100000 frames\n",
    },
];
