// The parts of scenes whose boxes repeat separately, reckoned by hand.
use page_model::Setup;
use period_frames::Horizon;
use region_parts::{PartFault, Parted};
use sample_pages::scene_of;
use std::alloc::Global;
use std::test::Fail;

/// What each box is besides its place and its animation, and what animates them.
const STYLE: &str =
    "div{position:absolute;top:0px;width:20px;height:50px;background-color:#000000}@keyframes o{to{opacity:0}}@keyframes m{to{left:40px}}@keyframes b{to{background-color:#ffffff}}";

/// A page in a viewport of 100 by 50 pixels at 10 frames a second.
struct Row {
    style: &'static str,
    boxes: &'static str,
    wanted: Option<&'static Wanted>,
}

/// The columns at which cells begin or end, of each cell the settled frame and the period, and the frames of the longest.
struct Wanted {
    xs: &'static [u16],
    horizons: &'static [(u32, u32)],
    frames: u32,
}

const ROWS: [Row; 8] = [
    // Far apart.
    Row {
        style: "",
        boxes: "<div style=\"left:10px;animation:o 983ms infinite\"></div><div style=\"left:60px;animation:o 199ms infinite\"></div>",
        wanted: Some(&Wanted {
            xs: &[0, 10, 30, 60, 80, 100],
            horizons: &[(0, 1), (0, 983), (0, 1), (0, 199), (0, 1)],
            frames: 983,
        }),
    },
    // Side by side, and one over the other in two pixels.
    Row {
        style: "",
        boxes: "<div style=\"left:10px;animation:o 983ms infinite\"></div><div style=\"left:30px;animation:o 199ms infinite\"></div>",
        wanted: Some(&Wanted {
            xs: &[0, 10, 30, 50, 100],
            horizons: &[(0, 1), (0, 983), (0, 199), (0, 1)],
            frames: 983,
        }),
    },
    Row {
        style: "",
        boxes: "<div style=\"left:10px;animation:o 983ms infinite\"></div><div style=\"left:28px;animation:o 199ms infinite\"></div>",
        wanted: None,
    },
    // A hidden box cuts, and meets no cell.
    Row {
        style: "",
        boxes: "<div style=\"left:10px;animation:o 983ms infinite\"></div><div style=\"left:28px;visibility:hidden;animation:o 199ms infinite\"></div>",
        wanted: Some(&Wanted {
            xs: &[0, 10, 28, 30, 48, 100],
            horizons: &[(0, 1), (0, 983), (0, 983), (0, 1), (0, 1)],
            frames: 983,
        }),
    },
    // But one that needs too much by itself is too much.
    Row {
        style: "",
        boxes: "<div style=\"left:10px;visibility:hidden;animation:o 99999ms infinite,o 99998ms infinite\"></div>",
        wanted: None,
    },
    // The body is everywhere.
    Row {
        style: "body{background-color:#000000;animation:b 1s 1}",
        boxes: "<div style=\"left:10px;animation:o 983ms infinite\"></div>",
        wanted: Some(&Wanted {
            xs: &[0, 10, 30, 100],
            horizons: &[(10, 1), (10, 983), (10, 1)],
            frames: 993,
        }),
    },
    // A box meets each cell where it comes by, in any of its frames.
    Row {
        style: "",
        boxes: "<div style=\"left:0px;width:10px;animation:m 400ms steps(2) infinite\"></div>",
        wanted: Some(&Wanted {
            xs: &[0, 10, 20, 30, 100],
            horizons: &[(0, 4), (0, 1), (0, 4), (0, 1)],
            frames: 4,
        }),
    },
    // Outside the viewport it meets none.
    Row {
        style: "",
        boxes: "<div style=\"left:-20px;animation:o 983ms infinite\"></div><div style=\"left:100px;animation:o 199ms infinite\"></div>",
        wanted: Some(&Wanted {
            xs: &[0, 100],
            horizons: &[(0, 1)],
            frames: 1,
        }),
    },
];

/// The parts of such a page.
fn parts_of(alloc: Global, row: &Row) -> Result<Result<Parted, PartFault>, Fail> {
    let style = format!(in alloc; "{STYLE}{}", row.style)?;
    let scene = scene_of(alloc, style.as_str(), row.boxes)?;
    let setup = Setup::new(100, 50, 10)?;
    Ok(Parted::of(alloc, &scene, &setup))
}

#[test]
fn cells_and_their_horizons(rt: HostRuntime) -> Result<(), Fail> {
    for row in ROWS.iter() {
        match (parts_of(rt.alloc(), row)?, row.wanted) {
            (Ok(parts), Some(wanted)) => {
                assert_eq!(rt; parts.xs(), wanted.xs, "{}", row.boxes);
                assert_eq!(rt; parts.ys(), [0u16, 50].as_slice(), "{}", row.boxes);
                assert_eq!(rt; parts.frames(), wanted.frames, "{}", row.boxes);
                assert_eq!(rt;
                    parts.cells() as usize,
                    wanted.horizons.len(),
                    "{}",
                    row.boxes
                );
                for i in 0..parts.cells() {
                    let Horizon { settled, period } = parts.horizon(i);
                    assert_eq!(rt;
                        wanted.horizons.get(i as usize),
                        Some(&(settled, period)),
                        "{}",
                        row.boxes
                    );
                }
            }
            (Err(PartFault::NotApart), None) => {}
            _ => return Err(Fail::from(row.boxes)),
        }
    }
    Ok(())
}

/// Boxes that cut the viewport into 64 cells, and one of them that ends so many ms after it began.
fn grid_parted(alloc: Global, delay: u32) -> Result<bool, Fail> {
    let style =
        "div{position:absolute;width:10px;height:10px;visibility:hidden;background-color:#000000}@keyframes o{to{opacity:0}}";
    let boxes = format!(in alloc;
        "<div style=\"left:0px;top:0px;visibility:visible;animation:o 54570ms {delay}ms 24\"></div><div style=\"left:20px;top:20px\"></div><div style=\"left:40px;top:40px\"></div><div style=\"left:60px;top:60px\"></div>"
    )?;
    let scene = scene_of(alloc, style, boxes.as_str())?;
    let setup = Setup::new(80, 80, 50)?;
    match Parted::of(alloc, &scene, &setup) {
        Ok(parts) => Ok(parts.cells() == 64 && parts.frames() == 65_485),
        Err(PartFault::NotApart) => Ok(false),
        Err(PartFault::NoMemory) => Err(Fail::from("no memory")),
    }
}

#[test]
fn as_much_work_as_may_be(rt: HostRuntime) -> Result<(), Fail> {
    assert!(rt; grid_parted(rt.alloc(), 0)?);
    assert!(rt; !grid_parted(rt.alloc(), 1)?);
    Ok(())
}
