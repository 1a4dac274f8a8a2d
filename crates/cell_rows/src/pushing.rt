// Rows that stand for tints, and one frame more.
ghost use Rattle.std.specs.Prelude.{ℕ, ◌≡◌, ◌+◌, ◌*◌, ◌^◌, ◌<◌, ◌≤◌, List, [], length};
ghost use Rattle.row_pool.specs.Pools.{IsOut, row_of, with_row};
ghost use Rattle.cell_rows.specs.CellRows.{AreBegun, ArePushed, AreRoomy, IsBegun, IsPushed, OnlyRows};

use flash_count::{Flag, row_begin, row_push};
use page_model::Tint;
use row_pool::{Pool, RowId};

/// Makes a row stand for no tints.
fn begin(pool: &mut Pool, id: RowId, rate: u16)
    requires some { 1 ≤ rate }
    requires limit { rate ≤ 240 }
    requires out { IsOut pool.old id.number }
    requires room { 9 * (rate + 1) ≤ length (row_of pool.old id.number) }
    ensures { (row : List ℕ) × IsBegun rate (row_of pool.old id.number) row × (pool.new ≡ with_row id.number row pool.old) }
{
    row_begin(pool.row_mut(id), rate);
}

/// Makes the first rows stand for no tints, so many.
pub fn begin_rows(pool: &mut Pool, rows: u32, rate: u16)
    requires some { 1 ≤ rate }
    requires limit { rate ≤ 240 }
    requires roomy { AreRoomy rate rows pool.old }
    ensures begun { AreBegun rate rows pool.old pool.new }
    ensures only { OnlyRows rows pool.old pool.new }
{
    for number in 0..rows {
        begin(pool, RowId { number }, rate);
    }
}

/// Adds a tint to a row.
fn push(pool: &mut Pool, id: RowId, rate: u16, turn: u32, tint: Tint) -> Flag
    requires some { 1 ≤ rate }
    requires limit { rate ≤ 240 }
    requires out { IsOut pool.old id.number }
    requires room { 9 * (rate + 1) ≤ length (row_of pool.old id.number) }
    requires few { turn < 2 ^ 31 }
    ensures { (row : List ℕ) × IsPushed rate turn tint (row_of pool.old id.number) row result × (pool.new ≡ with_row id.number row pool.old) }
{
    row_push(pool.row_mut(id), rate, turn, tint)
}

/// Adds the tints of a frame to the first rows, one to each, before which so many were added, and tells
/// the flag of each.
pub fn push_frame(pool: &mut Pool, rate: u16, turn: u32, tints: &[Tint], flags: &mut [Flag])
    requires some { 1 ≤ rate }
    requires limit { rate ≤ 240 }
    requires few { turn < 2 ^ 31 }
    requires many { length tints.now < 2 ^ 32 }
    requires room { length flags.old ≡ length tints.now }
    requires roomy { AreRoomy rate (length tints.now) pool.old }
    ensures pushed { ArePushed rate turn tints.now (length tints.now) pool.old pool.new flags.new }
    ensures only { OnlyRows (length tints.now) pool.old pool.new }
{
    for number in 0..tints.len() as u32 {
        let tint = tints[number as usize];
        flags[number as usize] = push(pool, RowId { number }, rate, turn, tint);
    }
}
