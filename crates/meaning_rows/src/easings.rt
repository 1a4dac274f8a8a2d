// Eased values, against an outside reckoning.
use easing_bounds::eased;
use easing_bounds::types::Eased;
use fix_span::{Frac, Span};
use page_model::Easing;
use page_model::Jump::{Both, End, Neither, Start};

#[test]
fn steps_by_value(rt: HostRuntime) {
    for (count, jump, (num, den), (wanted_num, wanted_den)) in [
        (3, Start, (89, 240), (2, 3)),
        (5, Start, (23, 60), (2, 5)),
        (60, End, (139, 240), (17, 30)),
        (5, End, (17, 24), (3, 5)),
        (1000, Neither, (3, 20), (50, 333)),
        (10, Neither, (157, 240), (2, 3)),
        (60, Both, (13, 24), (33, 61)),
        (2, Both, (157367, 200000), (2, 3)),
    ] {
        assert!(rt; count >= 2);
        assert!(rt; count <= 1000);
        assert!(rt; num >= 0);
        assert!(rt; num <= den);
        assert!(rt; den > 0);
        assert!(rt; den <= 1 << 48);
        let Eased::Exact(found) = eased(&Easing::Steps { count, jump }, Frac { num, den }) else {
            panic!(rt; "{count} {num} {den}");
        };
        assert_eq!(rt;
            found.num.wrapping_mul(wanted_den),
            found.den.wrapping_mul(wanted_num),
            "{count} {num} {den}"
        );
    }
}

#[test]
fn linear_by_value(rt: HostRuntime) {
    let x = Frac { num: 7, den: 30 };
    assert_eq!(rt; eased(&Easing::Linear, x), Eased::Exact(x));
}

#[test]
fn curves_by_value(rt: HostRuntime) {
    for ((x1, y1, x2, y2), (num, den), (lo, hi)) in [
        ((250, 100, 250, 1000), (151, 240), (970550766, 970563055)),
        (
            (1000, -4000, 1000, 4000),
            (7, 15),
            (-1221234107, -1221221818),
        ),
        ((0, 4000, 1000, -4000), (37, 240), (1227283041, 1227295330)),
        ((0, 0, 0, 0), (79, 240), (353433595, 353445884)),
    ] {
        assert!(rt; x1 <= 1000);
        assert!(rt; x2 <= 1000);
        assert!(rt; y1 >= -4000);
        assert!(rt; y1 <= 4000);
        assert!(rt; y2 >= -4000);
        assert!(rt; y2 <= 4000);
        assert!(rt; num >= 0);
        assert!(rt; num <= den);
        assert!(rt; den > 0);
        assert!(rt; den <= 1 << 48);
        assert_eq!(rt;
            eased(&Easing::Cubic { x1, y1, x2, y2 }, Frac { num, den }),
            Eased::Within(Span { lo, hi }),
            "{x1} {y1} {x2} {y2} {num} {den}"
        );
    }
}

#[test]
fn curve_ends_by_value(rt: HostRuntime) {
    let easing = Easing::Cubic {
        x1: 0,
        y1: 4000,
        x2: 1000,
        y2: -4000,
    };
    let begin = Frac { num: 0, den: 7 };
    let end = Frac { num: 7, den: 7 };
    assert_eq!(rt; eased(&easing, begin), Eased::Exact(begin));
    assert_eq!(rt; eased(&easing, end), Eased::Exact(end));
}
