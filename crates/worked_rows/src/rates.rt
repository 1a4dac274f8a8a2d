// Rates over 1,001, as video has them.
use flash_top::Status;
use row_runs::{BLACK_AND_WHITE, Page, Row, Verified};

const AT_VIDEO: &str = "check p 1024x768 60000/1001";

const VERIFY_AT_VIDEO: &str = "verify p w 1024x768 60000/1001";

/// The lamp that flashes: its changes are 125 ms apart.
const LAMP: Page = Page::Lamp("#000000", "#ffffff", "250ms steps(1) infinite");

/// Its witness: the eighth change comes in frame 60, which window 0 doesn't have.
const LAMP_AT_VIDEO: &str =
    r#"{"area":87296,"height":768,"parts":[{"frames":[1,8,15,23,30,38,45,53,60],"height":256,"kind":"general","tints":["000000","ffffff","000000","ffffff","000000","ffffff","000000","ffffff","000000"],"width":341,"x":0,"y":0}],"per":1001,"rate":60000,"start":1,"verdict":"fail","version":2,"width":1024,"x":0,"y":0}
"#;

const LAMP_AT_60_OVER_1001: &str =
    r#"{"area":87296,"height":768,"parts":[{"frames":[0,8,15,23,30,38,45,53,60],"height":256,"kind":"general","tints":["000000","ffffff","000000","ffffff","000000","ffffff","000000","ffffff","000000"],"width":341,"x":0,"y":0}],"per":1001,"rate":60060,"start":0,"verdict":"fail","version":2,"width":1024,"x":0,"y":0}
"#;

pub const RATES: [Row; 5] = [
    Row {
        shows: "eighth_change_in_the_next_window",
        page: LAMP,
        words: AT_VIDEO,
        status: Status::Bad,
        text: LAMP_AT_VIDEO,
    },
    Row {
        shows: "rate_of_its_own_with_the_frames_of_60",
        page: LAMP,
        words: "check p 1024x768 60060/1001",
        status: Status::Bad,
        text: LAMP_AT_60_OVER_1001,
    },
    Row {
        shows: "sixty_frames_each_time",
        page: Page::Lamp("#000000", "#ffffff", "1001ms steps(1) infinite"),
        words: AT_VIDEO,
        status: Status::Pass,
        text: "pass: frames 60\n",
    },
    Row {
        shows: "period_of_120000_frames",
        page: Page::Lamp("#000000", "#ffffff", "1s steps(1) infinite alternate"),
        words: AT_VIDEO,
        status: Status::Undecided,
        text: "undecided: more than 100000 frames\n",
    },
    Row {
        shows: "one_frame_in_a_second",
        page: Page::Lamp("#000000", "#ffffff", "250ms steps(1) 20"),
        words: "check p 1024x768 1001/1001",
        status: Status::Pass,
        text: "pass: frames 6\n",
    },
];

/// Witnesses at such rates. In the second and the third, the first version has the key of the second, and the second
/// version hasn't got it.
pub const RATE_WITNESSES: [Verified; 6] = [
    Verified {
        shows: "video_witness_is_accepted",
        page: LAMP,
        words: VERIFY_AT_VIDEO,
        witness: LAMP_AT_VIDEO,
        status: Status::Pass,
        text: "accepted: start 1, area 87296\n",
    },
    Verified {
        shows: "first_version_with_the_key_of_the_second",
        page: LAMP,
        words: VERIFY_AT_VIDEO,
        witness: r#"{"area":87296,"height":768,"parts":[{"frames":[1,8,15,23,30,38,45,53,60],"height":256,"kind":"general","tints":["000000","ffffff","000000","ffffff","000000","ffffff","000000","ffffff","000000"],"width":341,"x":0,"y":0}],"per":1001,"rate":60000,"start":1,"verdict":"fail","version":1,"width":1024,"x":0,"y":0}"#,
        status: Status::Bad,
        text: "refused: not a witness\n",
    },
    Verified {
        shows: "second_version_without_its_key",
        page: LAMP,
        words: VERIFY_AT_VIDEO,
        witness: r#"{"area":87296,"height":768,"parts":[{"frames":[1,8,15,23,30,38,45,53,60],"height":256,"kind":"general","tints":["000000","ffffff","000000","ffffff","000000","ffffff","000000","ffffff","000000"],"width":341,"x":0,"y":0}],"rate":60000,"start":1,"verdict":"fail","version":2,"width":1024,"x":0,"y":0}"#,
        status: Status::Bad,
        text: "refused: not a witness\n",
    },
    Verified {
        shows: "video_witness_at_60",
        page: LAMP,
        words: "verify p w 1024x768 60",
        witness: LAMP_AT_VIDEO,
        status: Status::Bad,
        text: "refused: condition 1\n",
    },
    Verified {
        shows: "video_witness_at_another_number_of_frames",
        page: LAMP,
        words: "verify p w 1024x768 60060/1001",
        witness: LAMP_AT_VIDEO,
        status: Status::Bad,
        text: "refused: condition 1\n",
    },
    Verified {
        shows: "witness_at_60_tested_at_video_rate",
        page: LAMP,
        words: VERIFY_AT_VIDEO,
        witness: BLACK_AND_WHITE,
        status: Status::Bad,
        text: "refused: condition 1\n",
    },
];
