// The witness of a lamp, accepted and refused.
ghost use Rattle.std.specs.Prelude.{◌^◌, ◌<◌, length};

use page_model::{Kind, List, Part, Rgb, Setup, Tint, Witness};
use sample_pages::{lamp, scene_of};
use std::alloc::Global;
use std::test::Fail;
use witness_checks::{WitnessFault, accepts};

const BLACK: Rgb = Rgb { r: 0, g: 0, b: 0 };

const WHITE: Rgb = Rgb {
    r: 255,
    g: 255,
    b: 255,
};

const DARK: Tint = Tint {
    lo: BLACK,
    hi: BLACK,
};

const LIGHT: Tint = Tint {
    lo: WHITE,
    hi: WHITE,
};

/// The lamp's part of the whole rectangle.
const PART: Part = Part {
    x: 0,
    y: 0,
    width: 341,
    height: 256,
    kind: Kind::General,
    frames: [0, 8, 15, 23, 30, 38, 45, 53, 60],
    tints: [DARK, LIGHT, DARK, LIGHT, DARK, LIGHT, DARK, LIGHT, DARK],
};

/// The fault of a witness of these parts for the lamp, at a rate.
fn fault_of(
    alloc: Global,
    rate: u16,
    area: u32,
    parts: Vec<Part>,
) -> Result<Option<WitnessFault>, Fail> {
    let style = lamp(alloc, "#000000", "#ffffff", "250ms steps(1) 20")?;
    let scene = scene_of(alloc, style.as_str(), "")?;
    let setup = Setup::new(1024, 768, rate)?;
    if parts.len() > 2 {
        return Err(Fail::from("too many parts"));
    }
    let witness = Witness {
        width: 1024,
        height: 768,
        rate: 60,
        per: 1,
        start: 0,
        x: 0,
        y: 0,
        area,
        parts: List::from_vec(parts),
    };
    Ok(accepts(&scene, &setup, &witness).err())
}

/// The fault of a witness of one part.
fn fault_at(alloc: Global, area: u32, part: Part) -> Result<Option<WitnessFault>, Fail> {
    fault_of(alloc, 60, area, vec![in alloc; part]?)
}

#[test]
fn a_lamp_is_accepted(rt: HostRuntime) -> Result<(), Fail> {
    assert_eq!(rt; fault_at(rt.alloc(), 87_296, PART)?, None);
    let parts = vec![in rt.alloc(); PART]?;
    let other_rate = fault_of(rt.alloc(), 50, 87_296, parts)?;
    assert_eq!(rt; other_rate, Some(WitnessFault::OtherSetup));
    let twice = vec![in rt.alloc(); PART, PART]?;
    let overlap = WitnessFault::PartsOverlap {
        first: 0,
        second: 1,
    };
    assert_eq!(rt; fault_of(rt.alloc(), 60, 174_592, twice)?, Some(overlap));
    Ok(())
}

/// Areas and parts that are refused, with the first fault.
const REFUSED: [(u32, Part, WitnessFault); 8] = [
    (
        87_552,
        Part { width: 342, ..PART },
        WitnessFault::PartOutside { part: 0 },
    ),
    (
        21_824,
        PART,
        WitnessFault::WrongArea {
            stated: 21_824,
            found: 87_296,
        },
    ),
    (
        21_824,
        Part { height: 64, ..PART },
        WitnessFault::SmallArea { area: 21_824 },
    ),
    (
        87_296,
        Part {
            frames: [0, 8, 8, 23, 30, 38, 45, 53, 60],
            ..PART
        },
        WitnessFault::FramesOrder { part: 0 },
    ),
    (
        87_296,
        Part {
            frames: [0, 8, 15, 23, 30, 38, 45, 53, 61],
            ..PART
        },
        WitnessFault::FramesOutside { part: 0 },
    ),
    (
        87_296,
        Part {
            frames: [0, 7, 15, 23, 30, 38, 45, 53, 60],
            ..PART
        },
        WitnessFault::WrongTint {
            part: 0,
            turn: 1,
            x: 0,
            y: 0,
        },
    ),
    (
        87_296,
        Part {
            kind: Kind::Red,
            ..PART
        },
        WitnessFault::NotChange { part: 0, turn: 1 },
    ),
    (
        87_296,
        Part {
            frames: [0, 8, 9, 15, 23, 30, 38, 45, 53],
            tints: [DARK, LIGHT, LIGHT, DARK, LIGHT, DARK, LIGHT, DARK, LIGHT],
            ..PART
        },
        WitnessFault::NotChange { part: 0, turn: 2 },
    ),
];

#[test]
fn the_first_fault_is_told(rt: HostRuntime) -> Result<(), Fail> {
    for (area, part, fault) in REFUSED.iter() {
        assert_eq!(rt; fault_at(rt.alloc(), *area, *part)?, Some(*fault));
    }
    Ok(())
}
