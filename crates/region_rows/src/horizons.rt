// Settled frames and periods, as another implementation has them.
use page_model::Setup;
use period_frames::{Horizon, needed, needed_of_layer};
use sample_pages::scene_of;
use std::alloc::Global;
use std::test::Fail;

/// What each box is besides its animation, and what animates it.
const BOX: &str =
    "div{position:absolute;left:0px;top:0px;width:1px;height:1px;background-color:#000000}@keyframes f{to{opacity:0}}";

/// The settled frame and the period of a box with these animations; none where that is too far.
fn repeat_at(alloc: Global, rate: u16, animation: &str) -> Result<Option<(u32, u32)>, Fail> {
    let boxes = format!(in alloc; "<div style=\"animation:{animation}\"></div>")?;
    let scene = scene_of(alloc, BOX, boxes.as_str())?;
    let setup = Setup::new(1, 1, rate)?;
    match needed(&scene, &setup) {
        Some(Horizon { settled, period }) => Ok(Some((settled, period))),
        None => Ok(None),
    }
}

/// A rate, animations, and what there must be.
const ROWS: [(u16, &str, Option<(u32, u32)>); 4] = [
    (60, "f 2798ms linear -1574ms 1 reverse", Some((74, 1))),
    (
        5,
        "f 250ms linear infinite,f 750ms linear -125ms infinite alternate-reverse",
        Some((0, 15)),
    ),
    (
        1,
        "f 99999ms linear 90s infinite,f 50s linear infinite",
        None,
    ),
    (
        1,
        "f 100s linear 90s infinite,f 50s linear infinite",
        Some((90, 100)),
    ),
];

#[test]
fn settled_frames_and_periods(rt: HostRuntime) -> Result<(), Fail> {
    for (rate, animation, wanted) in ROWS.iter() {
        let found = repeat_at(rt.alloc(), *rate, animation)?;
        assert_eq!(rt; found, *wanted, "{animation}");
    }
    Ok(())
}

/// A short blink for ever, and a fade of a second.
const TWO: &str =
    "<div style=\"animation:f 250ms linear infinite\"></div><div style=\"animation:f 1s 1\"></div>";

#[test]
fn a_layer_by_its_own_animations(rt: HostRuntime) -> Result<(), Fail> {
    let scene = scene_of(rt.alloc(), BOX, TWO)?;
    let setup = Setup::new(1, 1, 60)?;
    for (number, settled, period) in [(0u16, 0, 1), (1, 0, 15), (2, 60, 1)] {
        if usize::from(number) >= scene.layers.len() {
            return Err(Fail::from("no such layer"));
        }
        let found = needed_of_layer(&scene, &setup, number);
        assert_eq!(rt; found, Some(Horizon { settled, period }), "{number}");
    }
    Ok(())
}
