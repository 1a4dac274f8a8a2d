// Intervals: what the ends are where the set has none, and which keyframe's easing counts.
ghost use Rattle.std.specs.Prelude.{◌≤ℤ◌, pos};

use fix_span::Frac;
use keyframe_sets::types::Interval;
use keyframe_sets::{interval, names};
use page_model::{Easing, Jump, Prop, Scene, Value};
use sample_pages::scene_of;
use std::alloc::Global;
use std::test::Fail;

/// A box of opacity 1 with an animation between keyframes at 0%, 40% and 100%, only the second of which there is.
const STYLE: &str =
    "div{position:absolute;left:0px;top:0px;width:1px;height:1px;background-color:#000000;animation:f 1s linear}@keyframes f{40%{opacity:0.5;animation-timing-function:steps(2,jump-start)}}";

const EARLY: Easing = Easing::Steps {
    count: 2,
    jump: Jump::Start,
};

#[test]
fn a_set_names_what_a_keyframe_sets(rt: HostRuntime) -> Result<(), Fail> {
    let scene = scene_of(rt.alloc(), STYLE, "<div></div>")?;
    let set = scene.sets.get(0).ok_or("no set")?;
    assert!(rt; names(set, Prop::Opacity));
    assert!(rt; !names(set, Prop::Left));
    Ok(())
}

/// The interval of the box's opacity at so many tenths of the animation.
fn opacity_at(alloc: Global, num: i128) -> Result<Option<Interval>, Fail> {
    let scene = scene_of(alloc, STYLE, "<div></div>")?;
    if num < 0 || num > 10 {
        return Err(Fail::from("not a share"));
    }
    Ok(interval(&scene, 1, 0, Prop::Opacity, Frac { num, den: 10 }))
}

#[test]
fn missing_ends_are_the_elements_own(rt: HostRuntime) -> Result<(), Fail> {
    for (num, from, to, easing, (distance_num, distance_den)) in [
        (1, 1000, 500, Easing::Linear, (10000, 40000)),
        (4, 500, 1000, EARLY, (0, 60000)),
        (10, 500, 1000, EARLY, (60000, 60000)),
    ] {
        let wanted = Interval {
            from: Value::Opacity(from),
            to: Value::Opacity(to),
            easing,
            distance: Frac {
                num: distance_num,
                den: distance_den,
            },
        };
        assert_eq!(rt; opacity_at(rt.alloc(), num)?, Some(wanted), "at {num}");
    }
    Ok(())
}
