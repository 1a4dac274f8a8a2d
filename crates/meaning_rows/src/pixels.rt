// The tints of pixels, against an outside reckoning.
ghost use Rattle.std.specs.Prelude.{◌<◌, ◌^◌};

use page_model::{Rgb, Setup, Tint};
use paint_blend::tint;
use sample_pages::scene_of;
use std::alloc::Global;
use std::test::Fail;

/// A box of 7 by 8 pixels at (2, 4), which fades away each second.
const FADING: &str =
    "body{background-color:#5eec54}div{position:absolute;left:2px;top:4px;width:7px;height:8px;background-color:#70307e;animation:f 1s linear infinite}@keyframes f{to{opacity:0}}";

/// The tint of a pixel of the box's page in a frame at ten frames a second.
fn tint_at(alloc: Global, frame: u32, x: u16, y: u16) -> Result<Tint, Fail> {
    let scene = scene_of(alloc, FADING, "<div></div>")?;
    let setup = Setup::new(100, 90, 10)?;
    Ok(tint(&scene, &setup, frame as u64, x, y))
}

/// A frame, a pixel and its colour.
const ROWS: [(u32, u16, u16, u8, u8, u8); 7] = [
    (0, 2, 4, 112, 48, 126),
    (5, 8, 11, 103, 142, 105),
    (9, 5, 5, 96, 217, 88),
    (10, 5, 5, 112, 48, 126),
    (0, 1, 4, 94, 236, 84),
    (0, 9, 11, 94, 236, 84),
    (0, 8, 12, 94, 236, 84),
];

#[test]
fn a_box_fades(rt: HostRuntime) -> Result<(), Fail> {
    for (frame, x, y, r, g, b) in ROWS.iter() {
        let wanted = Rgb {
            r: *r,
            g: *g,
            b: *b,
        };
        let found = tint_at(rt.alloc(), *frame, *x, *y)?;
        assert_eq!(rt; found.lo, wanted, "{frame} {x} {y}");
        assert_eq!(rt; found.hi, wanted, "{frame} {x} {y}");
    }
    Ok(())
}
