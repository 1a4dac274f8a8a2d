// Halves are rounded up, and a value on the way.
use fix_span::{Encloses, Frac, Loose, mix};

/// A fraction, the unit that it is rounded to, and how many units it comes to.
const ROWS: [(i128, i128, u32, i32); 6] = [
    (1, 2, 1, 1),
    (-1, 2, 1, 0),
    (-3, 2, 1, -1),
    (149, 1, 100, 1),
    (150, 1, 100, 2),
    (9, 2, 3, 2),
];

#[test]
fn halves_round_up(rt: HostRuntime) {
    for (num, den, unit, wanted) in ROWS.iter() {
        assert!(rt;
            *num >= -1000 && *num <= 1000 && *den >= 1 && *den <= 2 && *unit >= 1 && *unit <= 100
        );
        let found = Frac {
            num: *num,
            den: *den,
        }
        .round_half_up(*unit);
        let whole = Loose {
            lo: *wanted,
            hi: *wanted,
        };
        assert_eq!(rt; found, whole, "{num} {den} {unit}");
    }
}

#[test]
fn a_value_on_the_way(rt: HostRuntime) {
    let from = Frac { num: 10, den: 1 };
    let to = Frac { num: 4, den: 1 };
    let value = mix(from, to, Frac { num: 1, den: 3 });
    assert_eq!(rt; value, Frac { num: 24, den: 3 });
}
