// Greatest areas, against an outside reckoning.
ghost use Rattle.std.specs.Prelude.{◌≡◌, IsTrue};
ghost use Rattle.window_area.specs.Edges.{AreEdges};

use window_area::{Best, greatest};

// The most cells of a test.
const CELLS: usize = 64;

// The edges may be handed to `greatest`.
fn are_edges(edges: &[u16]) -> bool
    ensures { IsTrue result → AreEdges edges.now }
{
    if edges.len() < 2 || edges[0] != 0 || edges[edges.len() - 1] > 4096 {
        return false;
    }
    for i in 1..edges.len() {
        if edges[i] <= edges[i - 1] {
            return false;
        }
    }
    true
}

// The answer for cells of which those with a 1 are flagged; None where a condition fails.
fn best_of(xs: &[u16], ys: &[u16], cells: &[u8]) -> Option<Best> {
    if !are_edges(xs) {
        return None;
    }
    if !are_edges(ys) {
        return None;
    }
    let many = cells.len();
    if many > CELLS || (ys.len() - 1).checked_mul(xs.len() - 1)? != many {
        return None;
    }
    let mut flags = [false; CELLS];
    for i in 0..many {
        flags[i] = cells[i] == b'1';
    }
    let mut work = [7; CELLS];
    Some(greatest(xs, ys, &flags[..many], &mut work))
}

fn found(area: u32, x: i32, y: i32) -> Option<Best> {
    Some(Best { area, x, y })
}

#[test]
fn areas_by_value(rt: HostRuntime) {
    let xs = [0, 300, 440, 580, 1024];
    let ys = [0, 300, 440, 768];
    assert_eq!(rt; best_of(&xs, &ys, b"000001100000"), found(39200, 239, 184));
    assert_eq!(rt; best_of(&xs, &ys, b"000000000000"), found(0, 0, 0));
}

#[test]
fn corners_by_value(rt: HostRuntime) {
    let one = best_of(
        &[0, 286, 308, 436, 1024],
        &[0, 264, 509, 768],
        b"000010100101",
    );
    assert_eq!(rt; one, found(87296, 436, 509));
    let wide = best_of(&[0, 56, 108, 120, 342], &[0, 31, 257], b"11111111");
    assert_eq!(rt; wide, found(87296, 0, 0));
    let xs = [0, 20, 53, 126, 144, 179, 204, 209, 266, 342];
    let low = best_of(
        &xs,
        &[0, 16, 73, 114, 257],
        b"010000100111011011101100011011111110",
    );
    assert_eq!(rt; low, found(63837, 0, 1));
}
