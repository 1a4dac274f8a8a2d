// Scenes of pages: which declaration wins, how lists are repeated, and the text of a fault.
use page_loader::{LoadFault, load};
use page_model::Scene;
use sample_pages::scene_of;
use std::test::Fail;

/// What each of the pages of winners begins with: a box that is placed, for each of whose lengths another rule may win.
const PLACED: &str =
    "div{position:absolute;left:0px;top:0px;width:1px;height:1px;background-color:#000000}";

/// Two rules, a style attribute, and the left edge of `<div id="i" class="c">` in hundredths of a pixel.
const WINNERS: [(&str, &str, i32); 10] = [
    ("#i{left:1px}.c{left:2px}", "", 100),
    (".c{left:1px}DIV{left:2px}", "", 100),
    (".c{left:1px}.c{left:2px}", "", 200),
    (".c{left:2px}.c{left:1px}", "", 100),
    ("#i{left:1px}DIV{left:2px !important}", "", 200),
    ("DIV{left:2px}div#I{left:1px}", "", 200),
    ("div#I{left:2px !important}div#I{left:1px}", "", 0),
    ("#i{left:1px}DIV{left:2px}", "left:3px", 300),
    (
        "#i{left:1px !important}DIV{left:2px !important}",
        "left:3px",
        100,
    ),
    (
        "#i{left:1px !important}DIV{left:2px !important}",
        "left:3px !important",
        300,
    ),
];

/// The left edge of a scene's first box.
fn left_of(scene: &Scene) -> Option<i32> {
    Some(scene.layers.get(1)?.left)
}

#[test]
fn declarations_that_win(rt: HostRuntime) -> Result<(), Fail> {
    for (rules, own, left) in WINNERS.iter() {
        let style = format!(in rt.alloc(); "{PLACED}{rules}")?;
        let boxes = format!(in rt.alloc(); "<div id=\"i\" class=\"c\" style=\"{own}\"></div>")?;
        let scene = scene_of(rt.alloc(), style.as_str(), boxes.as_str())?;
        assert_eq!(rt; left_of(&scene), Some(*left), "{rules} {own}");
    }
    Ok(())
}

/// A box with eight animations, and three delays for them.
const DELAYS: &str =
    "div{animation:f 1s;animation-name:f,f,f,f,f,f,f,f;animation-delay:10ms,-20ms,30ms}@keyframes f{0%{opacity:0}}";

#[test]
fn lists_are_repeated(rt: HostRuntime) -> Result<(), Fail> {
    let style = format!(in rt.alloc(); "{PLACED}{DELAYS}")?;
    let scene = scene_of(rt.alloc(), style.as_str(), "<div></div>")?;
    let layer = scene.layers.get(1).ok_or("no box")?;
    for (place, delay) in [(0, 10), (2, 30), (3, 10), (7, -20)] {
        let anim = layer.anims.get(place).ok_or("no animation")?;
        assert_eq!(rt; anim.delay, delay, "{place}");
        assert_eq!(rt; anim.duration, 1000, "{place}");
    }
    Ok(())
}

#[test]
fn a_page_without_style_has_a_scene(rt: HostRuntime) -> Result<(), Fail> {
    let scene = scene_of(rt.alloc(), "", "")?;
    assert_eq!(rt; scene.layers.len(), 1);
    assert!(rt; scene.order.is_empty());
    assert!(rt; scene.sets.is_empty());
    Ok(())
}

#[test]
fn a_fault_shows_its_own_text(rt: HostRuntime) -> Result<(), Fail> {
    let fault = match load(rt.alloc(), b"<!DOCTYPE html>".as_slice()) {
        Ok(_) => LoadFault::NoMemory,
        Err(fault) => fault,
    };
    let text = format!(in rt.alloc(); "{fault}")?;
    assert_eq!(rt; text.as_str(), "bad text at 15");
    Ok(())
}
