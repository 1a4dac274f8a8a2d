// Rows that are taken, and given back.
ghost use Rattle.std.specs.Prelude.{ℕ, ◌≡◌, ◌<◌, ◌≤◌, length, slice_index_or};
ghost use Rattle.row_pool.specs.Pools.{IsFree, IsOut};
ghost use Rattle.cell_rows.specs.CellRows.{AreGiven, AreTaken, AreAllFree, AreAllOut};

use row_pool::{Pool, RowId};

/// Takes the first rows, so many, which are free.
pub fn take_rows(pool: &mut Pool, rows: u32)
    requires { AreAllFree rows pool.old }
    ensures { AreTaken rows pool.old pool.new }
{
    for _ in 0..rows {
        let _ = pool.take();
    }
}

/// Gives the first rows back, so many, which are out.
pub fn give_rows(pool: &mut Pool, rows: u32)
    requires { AreAllOut rows pool.old }
    ensures { AreGiven rows pool.old pool.new }
{
    for number in 0..rows {
        pool.give(RowId { number });
    }
}
