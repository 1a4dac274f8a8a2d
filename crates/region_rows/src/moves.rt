// The edges of boxes that move and grow, against an outside reckoning.
use page_model::Setup;
use region_split::{CutFault, Cuts};
use sample_pages::scene_of;
use std::alloc::Global;
use std::test::Fail;

/// What each box is besides its lengths and what its animation makes of them.
const BOX: &str =
    "div{position:absolute;background-color:#204080;left:10px;top:5px;width:20px;height:10px}";

/// What an animation of the box does, and the edges of the cells in a viewport of 60 to 40 pixels at 4 frames a
/// second.
struct Row {
    style: &'static str,
    frames: u32,
    xs: &'static [u16],
    ys: &'static [u16],
}

const ROWS: [Row; 6] = [
    // a slide: in each frame where it begins and where it ends
    Row {
        style: "div{animation:f 1s linear infinite}@keyframes f{from{left:10px}to{left:14px}}",
        frames: 5,
        xs: &[0, 10, 11, 12, 13, 30, 31, 32, 33, 60],
        ys: &[0, 5, 15, 40],
    },
    // of which frames that are not looked at show nothing
    Row {
        style: "div{animation:f 1s linear infinite}@keyframes f{from{left:10px}to{left:14px}}",
        frames: 2,
        xs: &[0, 10, 11, 30, 31, 60],
        ys: &[0, 5, 15, 40],
    },
    // half way along a curve 20.5 may be 20 or 21, and so may the ends behind it
    Row {
        style: "div{animation:f 500ms ease-in-out infinite}@keyframes f{from{left:0px}to{left:41px}}",
        frames: 2,
        xs: &[0, 20, 21, 40, 41, 60],
        ys: &[0, 5, 15, 40],
    },
    // a hidden box that grows until it is past the viewport's end
    Row {
        style: "div{visibility:hidden;animation:f 2s steps(4) both}@keyframes f{from{height:25px}to{height:45px}}",
        frames: 9,
        xs: &[0, 10, 30, 60],
        ys: &[0, 5, 30, 35, 40],
    },
    // another property changes, and the box stays
    Row {
        style: "div{animation:f 1s linear infinite}@keyframes f{from{opacity:0}to{opacity:1}}",
        frames: 100241,
        xs: &[0, 10, 30, 60],
        ys: &[0, 5, 15, 40],
    },
    // the winning declaration is important, and the box stays
    Row {
        style: "div{left:12px!important;animation:f 1s linear infinite}@keyframes f{from{left:10px}to{left:14px}}",
        frames: 5,
        xs: &[0, 12, 32, 60],
        ys: &[0, 5, 15, 40],
    },
];

/// The cuts of one such box, or why it isn't cut.
fn cut(alloc: Global, style: &str, frames: u32) -> Result<Result<Cuts, CutFault>, Fail> {
    let style = format!(in alloc; "{BOX}{style}")?;
    let scene = scene_of(alloc, style.as_str(), "<div></div>")?;
    let setup = Setup::new(60, 40, 4)?;
    if !(1..=100_241).contains(&frames) {
        return Err(Fail::from("no such number of frames"));
    }
    match Cuts::of(alloc, &scene, &setup, frames) {
        Ok(cuts) => Ok(Ok(cuts)),
        Err(fault) => Ok(Err(fault)),
    }
}

#[test]
fn edges_of_moving_boxes(rt: HostRuntime) -> Result<(), Fail> {
    for row in ROWS.iter() {
        let Ok(cuts) = cut(rt.alloc(), row.style, row.frames)? else {
            return Err(Fail::from("not cut"));
        };
        assert_eq!(rt; cuts.xs(), row.xs, "{}", row.style);
        assert_eq!(rt; cuts.ys(), row.ys, "{}", row.style);
    }
    Ok(())
}

#[test]
fn work_of_a_box_that_moves_both_ways(rt: HostRuntime) -> Result<(), Fail> {
    let style =
        "div{animation:f 100s linear both}@keyframes f{from{left:0px;top:0px}to{left:60px;top:40px}}";
    let fault = cut(rt.alloc(), style, 1748)?.err();
    assert_eq!(rt; fault, Some(CutFault::Work { cells: 2400 }));
    assert!(rt; cut(rt.alloc(), style, 1747)?.is_ok());
    Ok(())
}
