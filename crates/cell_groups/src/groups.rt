// The groups of the cells of a scene.
ghost use Rattle.std.specs.Prelude.{◌≡◌, ◌<◌, ◌≤◌, IfOk, MatchOption, OnOk, length};
ghost use Rattle.page_model.specs.Cells.{cells_between};
ghost use Rattle.page_model.specs.ValidScene.{IsValid};
ghost use Rattle.cell_groups.specs.Adding.{AddsCell, IsAlone, IsNeighbour};
ghost use Rattle.cell_groups.specs.Groups.{AreGroups, no_groups};

use crate::alike::are_alike;
use crate::homes::{Home, homes_of};
use page_model::{NoMemory, Scene, Setup};
use region_split::Cuts;
use std::alloc::Global;
use std::marker::Model;

/// The group of each cell, and the first cell of each group.
#[derive(Drop)]
pub struct Groups {
    of: Vec<u32>,
    firsts: Vec<u32>,
}

impl Model for Groups {
    ghost use Rattle.cell_groups.specs.Groups.{Grouping};

    ghost Value = { Grouping };

    ghost view = { λ g. record { of = g.of.items; firsts = g.firsts.items } };
}

impl Groups {
    /// No groups, of no cells. It takes no memory.
    pub fn none(alloc: Global) -> Groups
        ensures { result ≡ no_groups }
    {
        Groups {
            of: Vec::new(alloc),
            firsts: Vec::new(alloc),
        }
    }

    /// The groups of all cells, by how the boxes cover them in so many frames. It takes eight bytes a cell at most.
    ///
    /// # Errors
    ///
    /// `NoMemory` where memory is refused.
    pub fn of(
        alloc: Global,
        scene: &Scene,
        setup: &Setup,
        cuts: &Cuts,
        frames: u32,
    ) -> Result<Groups, NoMemory>
        requires { IsValid scene.now }
        ensures { IfOk result (AreGroups scene.now setup.now frames cuts.now) }
    {
        let homes = homes_of(alloc, scene, setup, frames)?;
        let mut groups = Groups {
            of: Vec::with_capacity(alloc, cuts.cells() as usize)?,
            firsts: Vec::new(alloc),
        };
        for cell in 0..cuts.cells() {
            groups.add(cuts, homes.as_slice(), cell)?;
        }
        Ok(groups)
    }

    /// Adds a cell to the group of one that looks like it, or as the first of a group of its own.
    fn add(&mut self, cuts: &Cuts, homes: &[Home], cell: u32) -> Result<(), NoMemory>
        requires known { cell < cells_between cuts.now.xs cuts.now.ys }
        requires all { length self.old.of ≡ cell }
        requires few { length self.old.firsts ≤ cell }
        ensures { OnOk result (AddsCell homes.now cuts.now cell self.old self.new) }
    {
        let group = match neighbour(cuts, homes, cell) {
            Some(neighbour) => self.of[neighbour as usize],
            None => {
                let next = self.firsts.len() as u32;
                self.firsts.push(cell)?;
                next
            }
        };
        self.of.push(group)?;
        Ok(())
    }

    /// The group of each cell.
    pub fn of_cells(&self) -> &[u32]
        ensures { result.now ≡ self.now.of }
    {
        self.of.as_slice()
    }

    /// The first cell of each group.
    pub fn firsts(&self) -> &[u32]
        ensures { result.now ≡ self.now.firsts }
    {
        self.firsts.as_slice()
    }
}

/// The cell beside a cell, or else the one above it, if no box tells the two apart.
fn neighbour(cuts: &Cuts, homes: &[Home], cell: u32) -> Option<u32>
    requires { cell < cells_between cuts.now.xs cuts.now.ys }
    ensures { MatchOption result (IsAlone homes.now cuts.now cell) (IsNeighbour homes.now cuts.now cell) }
{
    let across = cuts.xs().len() as u32 - 1;
    let here = cuts.cell(cell);
    if 1 <= cell && are_alike(homes, &here, &cuts.cell(cell - 1)) {
        return Some(cell - 1);
    }
    if across <= cell && are_alike(homes, &here, &cuts.cell(cell - across)) {
        return Some(cell - across);
    }
    None
}
