// What pages come to, and the witness of one that flashes, against an outside reckoning.
use page_judge::{Judgement, judge};
use page_model::{Kind, Setup, Witness};
use sample_pages::{lamp, scene_of};
use std::alloc::Global;
use std::test::Fail;

/// What a page of this style text comes to in a viewport of 1024 by 768 at sixty frames a second.
fn judged(alloc: Global, style: &str) -> Result<Judgement, Fail> {
    let scene = scene_of(alloc, style, "")?;
    let setup = Setup::new(1024, 768, 60)?;
    Ok(judge(alloc, scene, setup)?)
}

/// Style texts of pages that pass, and how many windows have to be looked at.
const PASSED: [(&str, u32); 2] = [
    ("", 1),
    (
        "body{background-color:#000000;animation:f 286ms steps(1) 20}@keyframes f{0%{background-color:#000000}50%{background-color:#ffffff}}",
        345,
    ),
];

#[test]
fn pages_that_pass(rt: HostRuntime) -> Result<(), Fail> {
    for (style, wanted) in PASSED.iter() {
        let passes = match judged(rt.alloc(), style)? {
            Judgement::Pass { frames, apart } => frames == *wanted && !apart,
            _ => false,
        };
        assert!(rt; passes, "{wanted}");
    }
    Ok(())
}

/// The witness of a lamp.
fn witness_of(alloc: Global) -> Result<Witness, Fail> {
    let style = lamp(alloc, "#000000", "#ffffff", "250ms steps(1) 20")?;
    match judged(alloc, style.as_str())? {
        Judgement::Fail(witness) => Ok(witness),
        _ => Err(Fail::from("not failed")),
    }
}

#[test]
fn a_lamp_fails(rt: HostRuntime) -> Result<(), Fail> {
    let w = witness_of(rt.alloc())?;
    assert_eq!(rt; (w.width, w.height, w.rate), (1024, 768, 60));
    assert_eq!(rt; (w.start, w.x, w.y, w.area), (0, 0, 0, 87_296));
    assert_eq!(rt; w.parts.len(), 1);
    let part = w.parts.get(0).ok_or("no part")?;
    assert_eq!(rt; (part.x, part.y, part.width, part.height), (0, 0, 341, 256));
    assert_eq!(rt; part.frames, [0, 8, 15, 23, 30, 38, 45, 53, 60]);
    assert_eq!(rt; part.kind, Kind::General);
    assert_eq!(rt; part.tints[0].hi.r, 0);
    assert_eq!(rt; part.tints[1].lo.r, 255);
    Ok(())
}
