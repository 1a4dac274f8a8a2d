// Linear light, luminance and changes, against an outside reckoning.
use page_model::Rgb;
use srgb_luma::{is_fall, is_rise, lin, luma};

#[test]
fn linear_light_by_value(rt: HostRuntime) {
    for (channel, light) in [
        (0, 0),
        (1, 1303638),
        (10, 13036384),
        (11, 14373261),
        (12, 15790478),
        (64, 220200647),
        (119, 792314068),
        (128, 927113788),
        (188, 2159880890),
        (235, 3568129451),
        (254, 4256751094),
        (255, 4294967296),
    ] {
        assert_eq!(rt; lin(channel), light, "at {channel}");
    }
}

#[test]
fn luminance_by_value(rt: HostRuntime) {
    for (r, g, b, light) in [
        (0, 0, 0, 0),
        (10, 10, 10, 130363840000),
        (119, 119, 119, 7923140680000),
        (255, 0, 0, 9131100471296),
        (0, 255, 0, 30717606100992),
        (0, 0, 255, 3100966387712),
        (200, 100, 50, 9287434021336),
        (255, 255, 255, 42949672960000),
    ] {
        assert_eq!(rt; luma(Rgb { r, g, b }), light, "at {r} {g} {b}");
    }
}

#[test]
fn changes_by_value(rt: HostRuntime) {
    let black = Rgb { r: 0, g: 0, b: 0 };
    let white = Rgb {
        r: 255,
        g: 255,
        b: 255,
    };
    assert!(rt; is_rise(black, white));
    assert!(rt; is_fall(white, black));
}
