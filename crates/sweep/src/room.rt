// The memory that one pass takes.
ghost use Rattle.std.specs.Prelude.{◌≡◌, ◌+◌, ◌*◌, ◌^◌, ◌≤◌, IfOk, count_by};
ghost use Rattle.sweep.specs.Swept.{IsRoom};

use flash_count::{Flag, row_words};
use frame_state::{LayerState, NOTHING};
use page_model::{NoMemory, Rgb, Tint};
use row_pool::Pool;
use std::alloc::Global;

/// The tint of a group that wasn't seen yet.
const BLACK: Tint = Tint {
    lo: Rgb { r: 0, g: 0, b: 0 },
    hi: Rgb { r: 0, g: 0, b: 0 },
};

/// The flag of a group that wasn't seen yet.
const UNFLAGGED: Flag = Flag {
    possible: false,
    sure: false,
};

/// A row for each cell, of which each group of cells uses one, and what is known in the frame that is looked at.
#[derive(Drop)]
pub(crate) struct Room {
    pub(crate) pool: Pool,
    /// The states of the layers in the frame.
    pub(crate) states: Vec<LayerState>,
    /// Written over by those in the next frame.
    pub(crate) next: Vec<LayerState>,
    pub(crate) tints: Vec<Tint>,
    pub(crate) flags: Vec<Flag>,
    /// Which cells are flagged by the sort that is asked.
    pub(crate) marks: Vec<bool>,
    /// Written over by whoever looks for the greatest flagged area.
    pub(crate) work: Vec<u32>,
}

impl Room {
    /// Room for so many layers and cells, these in so many groups, at a rate.
    ///
    /// # Errors
    ///
    /// `NoMemory` where memory is refused.
    pub(crate) fn open(
        alloc: Global,
        layers: usize,
        cells: u32,
        groups: usize,
        rate: u16,
    ) -> Result<Room, NoMemory>
        requires some { 1 ≤ rate }
        requires limit { rate ≤ 240 }
        requires few { cells * (9 * (rate + 1)) ≤ 2 ^ 26 }
        ensures room { IfOk result (λ room. IsRoom rate layers cells groups room) }
        ensures free { IfOk result (λ room. count_by (λ is_free. is_free) room.pool.free ≡ cells) }
    {
        let pool = Pool::open(alloc, cells, row_words(rate))?;
        let states = vec![in alloc; NOTHING; layers]?;
        let next = vec![in alloc; NOTHING; layers]?;
        let tints = vec![in alloc; BLACK; groups]?;
        let flags = vec![in alloc; UNFLAGGED; groups]?;
        let marks = vec![in alloc; false; cells as usize]?;
        let work = vec![in alloc; 0u32; cells as usize]?;
        Ok(Room {
            pool,
            states,
            next,
            tints,
            flags,
            marks,
            work,
        })
    }
}
