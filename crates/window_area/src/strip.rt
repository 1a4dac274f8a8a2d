// The place at which a window holds most, over bands with weights.
ghost use Rattle.std.specs.Prelude.{pos, ◌≡◌, ◌+◌, ◌*◌, ◌<◌, ◌≤◌, length, slice_index, min, nat_lt, if◌then◌else◌};
ghost use Rattle.window_area.specs.Edges.{AreEdges, bands};
ghost use Rattle.window_area.specs.Sliding.{AreWeights, IsFirstMost, IsStride, IsWindow, strip_area};

use crate::window::Window;

/// The most that a window holds, and the first place with it.
#[derive(Clone, Copy)]
pub(crate) struct Most {
    pub(crate) area: u32,
    pub(crate) place: u32,
}

/// How many of the first places lie in a band.
pub(crate) fn overlap(edges: &[u16], band: usize, size: u32) -> u32
    requires edges { AreEdges edges.now }
    requires inside { band + 1 < length edges.now }
    ensures value { result + min (slice_index edges.now band) size ≡ min (slice_index edges.now (band + 1)) size }
    ensures small { result ≤ 4096 }
{
    u32::from(edges[band + 1]).min(size) - u32::from(edges[band]).min(size)
}

/// What a window at place 0 holds.
fn held_at_start(edges: &[u16], weights: &[u32], size: u32) -> u32
    requires edges { AreEdges edges.now }
    requires weights { AreWeights edges.now weights.now }
    ensures { result ≡ strip_area edges.now weights.now size 0 }
{
    let mut held = 0;
    for band in 0..edges.len() - 1 {
        held += overlap(edges, band, size) * weights[band];
    }
    held
}

/// What a window holds a stride further on: each place of the stride is gained at its end and lost
/// at its start.
fn held_after(held: u32, stride: u32, gain: u32, loss: u32) -> u32
    requires held { held ≤ 4096 * 4096 }
    requires stride { stride ≤ 4096 }
    requires gain { gain ≤ 4096 }
    requires loss { stride * loss ≤ held + stride * gain }
    ensures { result + stride * loss ≡ held + stride * gain }
{
    held + stride * gain - stride * loss
}

impl Most {
    /// The greater of the two, the earlier one where they are equal.
    pub(crate) fn or_later(self, later: Most) -> Most
        ensures { result ≡ (if nat_lt self.area later.area then later else self) }
    {
        if self.area < later.area { later } else { self }
    }
}

/// The most that a window of this size holds, and the first place with it.
pub(crate) fn most_in_strip(edges: &[u16], weights: &[u32], size: u32) -> Most
    requires edges { AreEdges edges.now }
    requires weights { AreWeights edges.now weights.now }
    requires some { 0 < size }
    requires small { size ≤ 4096 }
    ensures most { IsFirstMost (strip_area edges.now weights.now size) result }
    ensures early { result.place ≤ 4096 }
{
    let mut window = Window::open(edges, size);
    let mut held = held_at_start(edges, weights, size);
    let mut most = Most {
        area: held,
        place: 0,
    };
    while let Some(stride) = window.stride(edges) {
        held = held_after(held, stride, weights[window.next], weights[window.first]);
        window = window.slid(edges, stride);
        most = most.or_later(Most {
            area: held,
            place: window.place,
        });
    }
    most
}
