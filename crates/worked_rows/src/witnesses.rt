// Witnesses of a lamp that flashes, accepted and refused.
use flash_top::Status;
use row_runs::{CHECK, Page, WHOLE, bytes_of, is_told, run_between, run_on};
use std::alloc::Global;
use std::test::Fail;

const AT_60: &str = "verify p w 1024x768 60";

const FRAMES: &str = "0,8,15,23,30,38,45,53,60";

const TINTS: &str =
    r#""000000","ffffff","000000","ffffff","000000","ffffff","000000","ffffff","000000""#;

/// A witness of one part, or of that part twice, the words that test it, and what is told.
#[derive(Clone, Copy)]
struct Row {
    shows: &'static str,
    words: &'static str,
    frames: &'static str,
    tints: &'static str,
    width: u32,
    x: u32,
    twice: bool,
    area: u32,
    status: Status,
    text: &'static str,
}

/// What `check` tells of the lamp.
const TOLD: Row = Row {
    shows: "told_witness",
    words: AT_60,
    frames: FRAMES,
    tints: TINTS,
    width: 341,
    x: 0,
    twice: false,
    area: 87_296,
    status: Status::Pass,
    text: "accepted: start 0, area 87296\n",
};

const REFUSED: [Row; 12] = [
    Row {
        shows: "other_rate",
        words: "verify p w 1024x768 50",
        status: Status::Bad,
        text: "refused: condition 1\n",
        ..TOLD
    },
    Row {
        shows: "part_of_no_width",
        width: 0,
        status: Status::Bad,
        text: "refused: condition 2\n",
        ..TOLD
    },
    Row {
        shows: "part_outside_the_viewport",
        x: 1000,
        status: Status::Bad,
        text: "refused: condition 2\n",
        ..TOLD
    },
    Row {
        shows: "part_twice",
        twice: true,
        status: Status::Bad,
        text: "refused: condition 3\n",
        ..TOLD
    },
    Row {
        shows: "area_of_a_quarter",
        area: 21_824,
        status: Status::Bad,
        text: "refused: condition 4\n",
        ..TOLD
    },
    Row {
        shows: "area_of_one_pixel_less",
        area: 87_295,
        status: Status::Bad,
        text: "refused: condition 4\n",
        ..TOLD
    },
    Row {
        shows: "small_area",
        width: 85,
        area: 21_760,
        status: Status::Bad,
        text: "refused: condition 5\n",
        ..TOLD
    },
    Row {
        shows: "frames_out_of_order",
        frames: "0,15,8,23,30,38,45,53,60",
        status: Status::Bad,
        text: "refused: condition 6\n",
        ..TOLD
    },
    Row {
        shows: "frame_behind_the_window",
        frames: "0,8,15,23,30,38,45,53,61",
        status: Status::Bad,
        text: "refused: condition 7\n",
        ..TOLD
    },
    Row {
        shows: "frame_before_the_change",
        frames: "0,7,15,23,30,38,45,53,60",
        status: Status::Bad,
        text: "refused: condition 8\n",
        ..TOLD
    },
    Row {
        shows: "wrong_tint",
        tints: r#""000000","fffffe","000000","ffffff","000000","ffffff","000000","ffffff","000000""#,
        status: Status::Bad,
        text: "refused: condition 8\n",
        ..TOLD
    },
    Row {
        shows: "seven_changes",
        frames: "0,8,15,23,30,38,45,53,54",
        tints: r#""000000","ffffff","000000","ffffff","000000","ffffff","000000","ffffff","ffffff""#,
        status: Status::Bad,
        text: "refused: condition 9\n",
        ..TOLD
    },
];

/// Bytes that are no witness.
const NO_WITNESS: [&[u8]; 4] = [b"", b"{}", b"[]", b"{\"area\":87296}"];

/// The text of a row's witness.
fn witness_of(alloc: Global, row: &Row) -> Result<String, Fail> {
    let part = format!(in alloc;
        "{{\"frames\":[{}],\"height\":256,\"kind\":\"general\",\"tints\":[{}],\"width\":{},\"x\":{},\"y\":0}}",
        row.frames, row.tints, row.width, row.x
    )?;
    let parts = if row.twice {
        format!(in alloc; "{part},{part}")?
    } else {
        part
    };
    let text = format!(in alloc;
        "{{\"area\":{},\"height\":768,\"parts\":[{parts}],\"rate\":60,\"start\":0,\"verdict\":\"fail\",\"version\":1,\"width\":1024,\"x\":0,\"y\":0}}",
        row.area
    )?;
    Ok(text)
}

/// The lamp that flashes.
const LAMP: Page = Page::Lamp("#000000", "#ffffff", "250ms steps(1) 20");

/// Whether these words tell this where the file `p` is the lamp and the file `w` this witness.
fn tells(
    alloc: Global,
    words: &str,
    witness: &[u8],
    status: Status,
    text: &str,
) -> Result<bool, Fail> {
    let page = bytes_of(alloc, LAMP)?;
    let told = run_between(alloc, words, page.as_slice(), Some(witness), WHOLE)?;
    Ok(is_told(&told, status, text.as_bytes()))
}

/// Whether what `check` tells of the lamp is accepted.
fn is_told_witness_accepted(alloc: Global) -> Result<bool, Fail> {
    let page = bytes_of(alloc, LAMP)?;
    let told = run_on(alloc, CHECK, page.as_slice())?;
    tells(alloc, AT_60, told.text.as_slice(), TOLD.status, TOLD.text)
}

#[test]
fn first_condition_that_fails(rt: HostRuntime) -> Result<(), Fail> {
    assert!(rt; is_told_witness_accepted(rt.alloc())?);
    for row in REFUSED.iter() {
        let witness = witness_of(rt.alloc(), row)?;
        let told = tells(
            rt.alloc(),
            row.words,
            witness.as_bytes(),
            row.status,
            row.text,
        )?;
        assert!(rt; told, "{}", row.shows);
    }
    for text in NO_WITNESS.iter() {
        let told = tells(
            rt.alloc(),
            AT_60,
            text,
            Status::Bad,
            "refused: not a witness\n",
        )?;
        assert!(rt; told, "not a witness");
    }
    Ok(())
}
