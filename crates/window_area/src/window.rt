// A window of places that slides over the bands between edges.
ghost use Rattle.std.specs.Prelude.{◌≡◌, ◌+◌, ◌^◌, ◌<◌, ◌≤◌, length, slice_index, MatchOption};
ghost use Rattle.window_area.specs.Edges.{AreEdges, end_of};
ghost use Rattle.window_area.specs.Sliding.{IsInBand};

/// So many places from one on.
#[derive(Clone, Copy)]
pub(crate) struct Window {
    pub(crate) place: u32,
    pub(crate) size: u32,
    /// The band of the first place.
    pub(crate) first: usize,
    /// The band of the place behind the last one, or the number of bands where that is past them.
    pub(crate) next: usize,
}

/// The band in which a place lies, or the number of bands where the place is past them.
fn band_at(edges: &[u16], place: u32) -> usize
    requires { AreEdges edges.now }
    ensures { IsInBand edges.now place result }
{
    for band in 1..edges.len() {
        if place < u32::from(edges[band]) {
            return band - 1;
        }
    }
    edges.len() - 1
}

impl Window {
    ghost use Rattle.window_area.specs.Sliding.{IsStride, IsWindow};

    /// The window at place 0.
    pub(crate) fn open(edges: &[u16], size: u32) -> Window
        requires edges { AreEdges edges.now }
        requires some { 0 < size }
        ensures window { IsWindow edges.now result }
        ensures begins { result.place ≡ 0 }
        ensures size { result.size ≡ size }
    {
        Window {
            place: 0,
            size,
            first: 0,
            next: band_at(edges, size),
        }
    }

    /// How far the window can slide until one of its ends meets an edge. None where it holds the last
    /// place.
    pub(crate) fn stride(&self, edges: &[u16]) -> Option<u32>
        requires edges { AreEdges edges.now }
        requires window { IsWindow edges.now self.now }
        requires small { self.now.place + self.now.size < 2 ^ 31 }
        ensures { MatchOption result (end_of edges.now ≤ self.now.place + self.now.size)
            (λ stride. IsStride edges.now self.now stride) }
    {
        if self.next + 1 == edges.len() {
            return None;
        }
        let to_first = u32::from(edges[self.first + 1]) - self.place;
        let to_next = u32::from(edges[self.next + 1]) - (self.place + self.size);
        Some(to_first.min(to_next))
    }

    /// The window so far on.
    pub(crate) fn slid(&self, edges: &[u16], stride: u32) -> Window
        requires edges { AreEdges edges.now }
        requires window { IsWindow edges.now self.now }
        requires stride { IsStride edges.now self.now stride }
        ensures window { IsWindow edges.now result }
        ensures place { result.place ≡ self.now.place + stride }
        ensures size { result.size ≡ self.now.size }
    {
        let place = self.place + stride;
        Window {
            place,
            size: self.size,
            first: band_from(edges, self.first, place),
            next: band_from(edges, self.next, place + self.size),
        }
    }
}

/// The band of a place that lies in this band or at its end.
fn band_from(edges: &[u16], band: usize, place: u32) -> usize
    requires inside { band + 1 < length edges.now }
    requires edges { AreEdges edges.now }
    requires from { slice_index edges.now band ≤ place }
    requires to { place ≤ slice_index edges.now (band + 1) }
    ensures { IsInBand edges.now place result }
{
    if place < u32::from(edges[band + 1]) {
        band
    } else {
        band + 1
    }
}
