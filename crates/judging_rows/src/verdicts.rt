// A blinking page, against an outside reckoning.
use crate::opening::{Shown, sweep_of};
use page_model::BadWindow;
use std::alloc::Global;
use std::test::Fail;
use sweep::Verdict;

/// Black and white in turn, each for a tenth of a second, for ever.
const BLINKING: &str =
    "body{background-color:#000000;animation:f 200ms linear infinite}@keyframes f{0%{background-color:#000000}50%{background-color:#ffffff}}";

/// The verdict at ten frames a second, of two runs that tell the same.
fn verdict(alloc: Global, width: u16, height: u16) -> Result<Verdict, Fail> {
    let shown = Shown {
        style: BLINKING,
        boxes: "",
        width,
        height,
        rate: 10,
    };
    let mut sweep = sweep_of(alloc, shown)?;
    let first = sweep.run();
    if sweep.run() != first {
        return Err(Fail::from("another verdict"));
    }
    if sweep.free_rows() != sweep.rows() {
        return Err(Fail::from("a row is out"));
    }
    Ok(first)
}

const BAD: Verdict = Verdict::Fail(BadWindow {
    start: 0,
    x: 0,
    y: 0,
});

const SAFE: Verdict = Verdict::Pass {
    frames: 2,
    apart: false,
};

#[test]
fn a_page_blinks(rt: HostRuntime) -> Result<(), Fail> {
    for (width, height, wanted) in [(4096, 4096, BAD), (176, 125, BAD), (176, 124, SAFE)] {
        let found = verdict(rt.alloc(), width, height)?;
        assert_eq!(rt; found, wanted, "{width} {height}");
    }
    Ok(())
}

/// Two boxes that repeat together only after 195,617 frames, and one of them after 983.
const APART: Shown = Shown {
    style: "div{position:absolute;top:0px;width:20px;height:50px;background-color:#000000}@keyframes o{to{opacity:0}}",
    boxes: "<div style=\"left:10px;animation:o 983ms infinite\"></div><div style=\"left:60px;animation:o 199ms infinite\"></div>",
    width: 100,
    height: 50,
    rate: 10,
};

#[test]
fn regions_that_repeat_apart(rt: HostRuntime) -> Result<(), Fail> {
    let mut sweep = sweep_of(rt.alloc(), APART)?;
    assert_eq!(rt; sweep.rows(), 0);
    let wanted = Verdict::Pass {
        frames: 983,
        apart: true,
    };
    assert_eq!(rt; sweep.run(), wanted);
    Ok(())
}
