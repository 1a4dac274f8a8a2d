// The pool.
ghost use Rattle.std.specs.Prelude.{◌≡◌, ◌*◌, ◌^◌, ◌≤◌, IfOk, count_by, length};
ghost use Rattle.std.specs.Borrow.{sem};
ghost use Rattle.row_pool.specs.Lending.{LendsRow};
ghost use Rattle.row_pool.specs.Pools.{IsOut, IsTaking, given_back, opened, row_of};

use crate::numbers::{count_out, first_in, hand_out};
use page_model::NoMemory;
use std::alloc::Global;
use std::marker::Model;

/// A row of a pool, by its number from 0 on. It says nothing of which pool it is of.
#[derive(Clone, Copy, Debug, PartialEq, Eq)]
pub struct RowId {
    pub number: u32,
}

/// Rows of words, all of one width, that are lent out by number.
#[derive(Drop)]
pub struct Pool {
    rows: u32,
    width: u32,
    /// The words of the rows that were ever taken, row by row: their numbers are the first ones.
    words: Vec<u64>,
    /// Of each of these rows, whether its number is out.
    out: Vec<bool>,
    /// All numbers below this one are out.
    least: u32,
}

impl Model for Pool {
    ghost use Rattle.std.specs.Prelude.{length, vec_capacity};
    ghost use Rattle.row_pool.specs.Kept.{IsKept, free_in, rows_in};
    ghost use Rattle.row_pool.specs.Rows.{Rows};

    ghost Value = { Rows };

    ghost view = { λ p. record { rows = rows_in p.rows p.width p.words.items; free = free_in p.rows p.out.items; begun = length p.out.items } };

    ghost invariant = { λ p. IsKept p.rows p.width p.words.items (vec_capacity p.words) p.out.items (vec_capacity p.out) p.least };
}

impl Pool {
    /// Rows of so many words of value 0, all of them free. All memory of the pool is taken here.
    ///
    /// # Errors
    ///
    /// `NoMemory` where memory is refused.
    pub fn open(alloc: Global, rows: u32, width: u32) -> Result<Pool, NoMemory>
        requires { rows * width ≤ 2 ^ 26 }
        ensures { IfOk result (λ pool. pool ≡ opened rows width) }
    {
        let words = Vec::with_capacity(alloc, rows as usize * width as usize)?;
        let out = Vec::with_capacity(alloc, rows as usize)?;
        Ok(Pool {
            rows,
            width,
            words,
            out,
            least: 0,
        })
    }

    /// Hands out the least free number, `None` exactly where none is free.
    pub fn take(&mut self) -> Option<RowId>
        ensures { IsTaking self.old result self.new }
    {
        let number = first_in(self.out.as_slice(), self.least);
        if number == self.rows {
            return None;
        }
        hand_out(&mut self.words, &mut self.out, self.width, number);
        self.least = number + 1;
        Some(RowId { number })
    }

    /// Makes a number free that is out. Its row keeps its words.
    pub fn give(&mut self, id: RowId)
        requires out { IsOut self.old id.number }
        ensures { self.new ≡ given_back id.number self.old }
    {
        self.out[id.number as usize] = false;
        if id.number < self.least {
            self.least = id.number;
        }
    }

    /// The words of a row whose number is out.
    pub fn row(&self, id: RowId) -> &[u64]
        requires out { IsOut self.now id.number }
        ensures { result.now ≡ row_of self.now id.number }
    {
        let width = self.width as usize;
        let start = id.number as usize * width;
        &self.words[start..start + width]
    }

    /// The words of a row whose number is out, for writing. All other rows stay as they are.
    pub fn row_mut(&mut self, id: RowId) -> &mut [u64]
        requires out { IsOut self.old id.number }
        ensures* writes_back { sem 𝓛 (LendsRow self.entry id.number result) }
        ensures value { result.now ≡ row_of self.old id.number }
    {
        let width = self.width as usize;
        let start = id.number as usize * width;
        self.words.slice_mut(start..start + width)
    }

    /// How many rows there are.
    pub fn rows(&self) -> u32
        ensures { result ≡ length self.now.rows }
    {
        self.rows
    }

    /// How many numbers are free.
    pub fn free(&self) -> u32
        ensures { result ≡ count_by (λ is_free. is_free) self.now.free }
    {
        self.rows - count_out(self.out.as_slice())
    }
}
