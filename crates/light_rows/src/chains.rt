// Chains of tints, against an outside reckoning.
ghost use Rattle.std.specs.Prelude.{◌^◌, ◌<◌, ◌≤◌, length};

use flash_count::{Flag, Trace, Tracker, chain};
use page_model::{Kind, Rgb, Tint};

// A tint from one grey to another.
fn greys(lo: u8, hi: u8) -> Tint {
    Tint {
        lo: Rgb {
            r: lo,
            g: lo,
            b: lo,
        },
        hi: Rgb {
            r: hi,
            g: hi,
            b: hi,
        },
    }
}

// The flags at a rate after these tints.
fn flags_of(rate: u16, tints: &[Tint]) -> Flag
    requires some { 1 ≤ rate }
    requires limit { rate ≤ 240 }
    requires few { length tints.now < 2 ^ 31 }
{
    let mut tracker = Tracker::new(rate);
    for tint in tints {
        tracker.push(*tint);
    }
    tracker.flagged()
}

fn flag(possible: bool, sure: bool) -> Flag {
    Flag { possible, sure }
}

#[test]
fn black_and_white_in_turn(rt: HostRuntime) {
    let black = greys(0, 0);
    let white = greys(255, 255);
    let any = greys(0, 255);
    let sure = [
        black, white, black, white, black, white, black, white, black,
    ];
    assert_eq!(rt; flags_of(8, &sure[..8]), flag(false, false));
    assert_eq!(rt; flags_of(8, &sure), flag(true, true));
    assert_eq!(rt; flags_of(7, &sure), flag(false, false));
    let loose = [black, any, black, any, black, any, black, any, black];
    assert_eq!(rt; flags_of(8, &loose), flag(true, false));
}

#[test]
fn chain_over_greys_between(rt: HostRuntime) {
    let low = greys(0x00, 0x00);
    let some = greys(0x40, 0x40);
    let high = greys(0x5a, 0x5a);
    let tints = [
        low, some, high, some, low, some, high, some, low, some, high, some, low, some, high, some,
        low,
    ];
    let trace = Trace {
        kind: Kind::General,
        places: [0, 2, 4, 6, 8, 10, 12, 14, 16],
    };
    assert_eq!(rt; flags_of(16, &tints), flag(true, true));
    assert_eq!(rt; chain(&tints), Some(trace));
    assert_eq!(rt; chain(&tints[1..]), None);
}

// The places of the first chain of these greys.
fn places_of(levels: &[u8]) -> Option<[u16; 9]>
    requires { length levels.now ≤ 24 }
{
    let mut tints = [greys(0, 0); 24];
    for (i, level) in levels.iter().enumerate() {
        tints[i] = greys(*level, *level);
    }
    let trace = chain(&tints[..levels.len()])?;
    Some(trace.places)
}

#[test]
fn places_by_value(rt: HostRuntime) {
    assert_eq!(rt;
        places_of(b"@\0\0@@\x80\0@@Z\0@Z\0@\x80Z@Z@\0"),
        Some([0, 5, 6, 9, 10, 12, 13, 15, 16])
    );
    assert_eq!(rt;
        places_of(b"Z\0@@\0Z@Z\0\0@\x80@\x80\0Z"),
        Some([0, 1, 5, 8, 11, 12, 13, 14, 15])
    );
    assert_eq!(rt;
        places_of(b"\x80@\0\0Z\0@\x80ZZ@\x80ZZ\0\0@\x80ZZ@"),
        Some([0, 2, 4, 5, 7, 8, 11, 12, 17])
    );
}
