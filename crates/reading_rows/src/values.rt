// Values of style texts.
use css_values::types::Property;
use css_values::{
    ValueFault, colour, declaration, easing, length, opacity, percentage, property, time, z_index,
};
use page_model::{Easing, Jump, List, Longhand, Place, Rgba};
use std::alloc::Global;
use std::test::Fail;
use text_scan::{CssToken, scan_css};

// The tokens of a short text.
fn tokens(alloc: Global, text: &[u8]) -> Result<List<CssToken>, Fail> {
    if text.len() > 1000 {
        return Err(Fail::from("a long text"));
    }
    let all = Place {
        from: 0,
        to: text.len() as u32,
    };
    Ok(scan_css(alloc, text, all)?)
}

#[test]
fn names_of_properties_in_any_case(rt: HostRuntime) {
    assert_eq!(rt; property(b"Z-Index"), Some(Property::ZIndex));
    assert_eq!(rt; property(b"animation-names"), None);
}

#[test]
fn lengths(rt: HostRuntime) -> Result<(), Fail> {
    for (text, signed, value) in [
        (b"-8192.00PX" as &[u8], true, Ok(-819200)),
        (b"8192.01px", true, Err(ValueFault::OverLimit)),
        (b"-0.01px", false, Err(ValueFault::BadValue)),
        (b"-0", false, Ok(0)),
        (b"1", true, Err(ValueFault::BadValue)),
    ] {
        let tokens = tokens(rt.alloc(), text)?;
        assert_eq!(rt; length(text, tokens.as_slice(), signed), value);
    }
    Ok(())
}

#[test]
fn plain_numbers(rt: HostRuntime) -> Result<(), Fail> {
    let delay = tokens(rt.alloc(), b"-.25s")?;
    assert_eq!(rt; time(b"-.25s", delay.as_slice(), true), Ok(-250));
    let share = tokens(rt.alloc(), b"250.5%")?;
    assert_eq!(rt; percentage(b"250.5%", share.as_slice()), Ok(25050));
    let held = tokens(rt.alloc(), b"1.5")?;
    assert_eq!(rt; opacity(b"1.5", held.as_slice()), Ok(1000));
    let order = tokens(rt.alloc(), b"-07")?;
    assert_eq!(rt; z_index(b"-07", order.as_slice()), Ok(-7));
    Ok(())
}

#[test]
fn colours_and_easings(rt: HostRuntime) -> Result<(), Fail> {
    let text = b"rgb(0, 300, 7)";
    let channels = tokens(rt.alloc(), text)?;
    let rgb = colour(text, channels.as_slice());
    assert_eq!(rt;
        rgb,
        Ok(Rgba {
            r: 0,
            g: 255,
            b: 7,
            a: 255_000
        })
    );
    let text = b"steps(2, jump-none)";
    let steps = tokens(rt.alloc(), text)?;
    let two = Easing::Steps {
        count: 2,
        jump: Jump::Neither,
    };
    assert_eq!(rt; easing(text, steps.as_slice()), Ok(two));
    Ok(())
}

#[test]
fn a_shorthand_of_two_items(rt: HostRuntime) -> Result<(), Fail> {
    let text = b"none 2s spin 250ms, 1s ease-in both";
    let tokens = tokens(rt.alloc(), text)?;
    let longhands = declaration(rt.alloc(), Property::Animation, text, tokens.as_slice())?;
    assert_eq!(rt; longhands.len(), 8);
    assert!(rt;
        matches!(longhands.get(1), Some(Longhand::Durations(times)) if times.as_slice() == [2000, 1000].as_slice())
    );
    assert!(rt;
        matches!(longhands.get(3), Some(Longhand::Delays(times)) if times.as_slice() == [250, 0].as_slice())
    );
    Ok(())
}
