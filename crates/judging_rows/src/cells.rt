// Edges, cells and their tints, against an outside reckoning.
use crate::opening::{Shown, opened, sweep_of};
use cell_tints::tints_of_cells;
use page_model::{Rgb, Tint};
use region_split::Rect;
use std::test::Fail;
use sweep::OpenFault;

/// What each box is besides its lengths: hidden, and it cuts the viewport all the same.
const HIDDEN: &str = "div{position:absolute;visibility:hidden;background-color:#000000}";

/// Boxes, and the edges of their cells, of which the last are the viewport's.
struct Row {
    boxes: &'static str,
    xs: &'static [u16],
    ys: &'static [u16],
}

const ROWS: [Row; 3] = [
    Row {
        boxes: "",
        xs: &[0, 60],
        ys: &[0, 240],
    },
    Row {
        boxes: "<div style=\"left:8px;top:7px;width:509px;height:229px\"></div><div style=\"left:-3px;top:4px;width:585px;height:291px\"></div>",
        xs: &[0, 8, 320],
        ys: &[0, 4, 7, 90],
    },
    Row {
        boxes: "<div style=\"left:2.19px;top:1px;width:5px;height:5px\"></div><div style=\"left:4px;top:-2px;width:5.43px;height:8px\"></div>",
        xs: &[0, 2, 4, 7, 9, 320],
        ys: &[0, 1, 6, 40],
    },
];

#[test]
fn edges_of_cells(rt: HostRuntime) -> Result<(), Fail> {
    for row in ROWS.iter() {
        let shown = Shown {
            style: HIDDEN,
            boxes: row.boxes,
            width: *row.xs.last().ok_or("no width")?,
            height: *row.ys.last().ok_or("no height")?,
            rate: 60,
        };
        let sweep = sweep_of(rt.alloc(), shown)?;
        assert_eq!(rt; sweep.cuts().xs(), row.xs, "{}", row.boxes);
        assert_eq!(rt; sweep.cuts().ys(), row.ys, "{}", row.boxes);
    }
    Ok(())
}

#[test]
fn cells_are_numbered_by_rows(rt: HostRuntime) -> Result<(), Fail> {
    let shown = Shown {
        style: HIDDEN,
        boxes: "<div style=\"left:22px;top:18px;width:318px;height:13px\"></div><div style=\"left:308px;top:25px;width:51px;height:6px\"></div>",
        width: 60,
        height: 40,
        rate: 60,
    };
    let sweep = sweep_of(rt.alloc(), shown)?;
    let cuts = sweep.cuts();
    assert!(rt; cuts.cells() == 8);
    let third = Rect {
        x: 22,
        y: 18,
        width: 38,
        height: 7,
    };
    assert_eq!(rt; cuts.cell(3), third);
    Ok(())
}

/// Six boxes that make 64 cells, one of which is animated.
const SIX: &str =
    "<div id=\"a\" style=\"left:0px;top:-2px;width:4px;height:6px\"></div><div style=\"left:3px;top:1px;width:6.5px;height:5px\"></div><div style=\"left:2px;top:4px;width:5px;height:5px\"></div><div style=\"left:2.2px;top:0px;width:4px;height:5px\"></div><div style=\"left:3.43px;top:3px;width:5px;height:5px\"></div><div style=\"left:-3px;top:1px;width:5px;height:5px\"></div>";

#[test]
fn work_from_the_limit_on(rt: HostRuntime) -> Result<(), Fail> {
    for (count, fault) in [
        ("1091.233", None),
        (
            "1091.234",
            Some(OpenFault::Work {
                cells: 64,
                frames: 65537,
            }),
        ),
    ] {
        let style = format!(in rt.alloc();
            "{HIDDEN}#a{{animation:f 1s linear {count}}}@keyframes f{{to{{opacity:0}}}}"
        )?;
        let shown = Shown {
            style: style.as_str(),
            boxes: SIX,
            width: 60,
            height: 40,
            rate: 60,
        };
        assert_eq!(rt; opened(rt.alloc(), shown)?.err(), fault, "{count}");
    }
    Ok(())
}

/// A page with nothing but a body, whose canvas is white.
const BARE: Shown<'static> = Shown {
    style: "",
    boxes: "",
    width: 60,
    height: 40,
    rate: 10,
};

#[test]
fn a_bare_page_is_white(rt: HostRuntime) -> Result<(), Fail> {
    let sweep = sweep_of(rt.alloc(), BARE)?;
    let tints = tints_of_cells(rt.alloc(), sweep.scene(), sweep.setup(), sweep.cuts(), 7, 3)?;
    let white = Rgb {
        r: 255,
        g: 255,
        b: 255,
    };
    let one = Tint {
        lo: white,
        hi: white,
    };
    assert!(rt; tints.as_slice() == [one; 3].as_slice());
    Ok(())
}
