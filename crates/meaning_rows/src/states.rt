// How the states of layers are rounded.
ghost use Rattle.std.specs.Prelude.{◌<◌, ◌^◌};

use fix_span::Loose;
use frame_state::{LayerState, Shown, layer_at};
use page_model::Setup;
use sample_pages::scene_of;
use std::alloc::Global;
use std::test::Fail;

/// The state of the first box of a page in a frame at ten frames a second.
fn state_of(alloc: Global, style: &str, frame: u32) -> Result<LayerState, Fail> {
    let scene = scene_of(alloc, style, "<div></div>")?;
    let setup = Setup::new(100, 90, 10)?;
    if scene.layers.len() < 2 {
        return Err(Fail::from("no box"));
    }
    Ok(layer_at(&scene, &setup, frame as u64, 1))
}

/// Style text of a box, a frame, and the box's left edge and its alpha in it.
const HALVES: [(&str, u32, i32, i32); 8] = [
    ("div{left:-0.5px;opacity:1}", 0, 0, 255),
    ("div{left:-0.51px;opacity:0}", 0, -1, 0),
    ("div{left:0.5px;opacity:0.5}", 0, 1, 128),
    ("div{left:0.49px;opacity:0.502}", 0, 0, 128),
    ("div{left:8192px;opacity:0.499}", 0, 8192, 127),
    ("div{left:-8192px;opacity:0.498}", 0, -8192, 127),
    (
        "div{left:1.5px;animation:f 1s linear}@keyframes f{to{opacity:0}}",
        5,
        2,
        128,
    ),
    (
        "div{left:-1.5px;opacity:0;animation:f 1s linear}@keyframes f{to{opacity:1}}",
        5,
        -1,
        128,
    ),
];

/// What each box is besides.
const BOX: &str = "div{position:absolute;top:0px;width:1px;height:1px;background-color:#000000}";

/// A number that is known.
fn known(value: i32) -> Loose {
    Loose {
        lo: value,
        hi: value,
    }
}

#[test]
fn halves_are_rounded_up(rt: HostRuntime) -> Result<(), Fail> {
    for (own, frame, left, alpha) in HALVES.iter() {
        let style = format!(in rt.alloc(); "{BOX}{own}")?;
        let state = state_of(rt.alloc(), style.as_str(), *frame)?;
        assert_eq!(rt; state.shown, Shown::Yes, "{own}");
        assert_eq!(rt; state.left, known(*left), "{own}");
        assert_eq!(rt; state.alpha, known(*alpha), "{own}");
    }
    Ok(())
}
