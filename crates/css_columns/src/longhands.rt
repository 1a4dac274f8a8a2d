// The eight longhands of the shorthand, each with its part of each item.
ghost use Rattle.std.specs.Prelude.{◌≡◌, IfOk, map};
ghost use Rattle.css_columns.specs.Columns.{columns};

use crate::item::Shorthand;
use page_model::{Count, Direction, Easing, Fill, List, Longhand, Name, NoMemory};
use std::alloc::Global;

/// The durations of the items.
fn durations(alloc: Global, items: &[Shorthand]) -> Result<List<u32>, NoMemory>
    ensures { IfOk result (λ list. list ≡ map (λ i. i.duration) items.now) }
{
    let mut list = List::new(alloc);
    let mut rest = items;
    'items: while let Some((first, more)) = rest.split_first() {
        list.push(first.duration)?;
        rest = more;
    }
    Ok(list)
}

/// The easings of the items.
fn easings(alloc: Global, items: &[Shorthand]) -> Result<List<Easing>, NoMemory>
    ensures { IfOk result (λ list. list ≡ map (λ i. i.easing) items.now) }
{
    let mut list = List::new(alloc);
    let mut rest = items;
    'items: while let Some((first, more)) = rest.split_first() {
        list.push(first.easing)?;
        rest = more;
    }
    Ok(list)
}

/// The delays of the items.
fn delays(alloc: Global, items: &[Shorthand]) -> Result<List<i32>, NoMemory>
    ensures { IfOk result (λ list. list ≡ map (λ i. i.delay) items.now) }
{
    let mut list = List::new(alloc);
    let mut rest = items;
    'items: while let Some((first, more)) = rest.split_first() {
        list.push(first.delay)?;
        rest = more;
    }
    Ok(list)
}

/// The counts of the items.
fn counts(alloc: Global, items: &[Shorthand]) -> Result<List<Count>, NoMemory>
    ensures { IfOk result (λ list. list ≡ map (λ i. i.count) items.now) }
{
    let mut list = List::new(alloc);
    let mut rest = items;
    'items: while let Some((first, more)) = rest.split_first() {
        list.push(first.count)?;
        rest = more;
    }
    Ok(list)
}

/// The directions of the items.
fn directions(alloc: Global, items: &[Shorthand]) -> Result<List<Direction>, NoMemory>
    ensures { IfOk result (λ list. list ≡ map (λ i. i.direction) items.now) }
{
    let mut list = List::new(alloc);
    let mut rest = items;
    'items: while let Some((first, more)) = rest.split_first() {
        list.push(first.direction)?;
        rest = more;
    }
    Ok(list)
}

/// The fill modes of the items.
fn fills(alloc: Global, items: &[Shorthand]) -> Result<List<Fill>, NoMemory>
    ensures { IfOk result (λ list. list ≡ map (λ i. i.fill) items.now) }
{
    let mut list = List::new(alloc);
    let mut rest = items;
    'items: while let Some((first, more)) = rest.split_first() {
        list.push(first.fill)?;
        rest = more;
    }
    Ok(list)
}

/// The play states of the items.
fn plays(alloc: Global, items: &[Shorthand]) -> Result<List<bool>, NoMemory>
    ensures { IfOk result (λ list. list ≡ map (λ i. i.paused) items.now) }
{
    let mut list = List::new(alloc);
    let mut rest = items;
    'items: while let Some((first, more)) = rest.split_first() {
        list.push(first.paused)?;
        rest = more;
    }
    Ok(list)
}

/// The names of the items.
fn names(alloc: Global, items: List<Shorthand>) -> Result<List<Option<Name>>, NoMemory>
    ensures { IfOk result (λ list. list ≡ map (λ i. i.name) items) }
{
    let values = items
        .into_vec()
        .into_iter()
        .map(|item| item.name)
        .collect(alloc)?;
    Ok(List::from_vec(values))
}

/// The eight longhands.
pub fn columns(alloc: Global, items: List<Shorthand>) -> Result<List<Longhand>, NoMemory>
    ensures { IfOk result (λ list. list ≡ columns items) }
{
    let slice = items.as_slice();
    let durations = durations(alloc, slice)?;
    let easings = easings(alloc, slice)?;
    let delays = delays(alloc, slice)?;
    let counts = counts(alloc, slice)?;
    let directions = directions(alloc, slice)?;
    let fills = fills(alloc, slice)?;
    let plays = plays(alloc, slice)?;
    let names = names(alloc, items)?;
    let mut list = List::new(alloc);
    list.push(Longhand::Names(names))?;
    list.push(Longhand::Durations(durations))?;
    list.push(Longhand::Easings(easings))?;
    list.push(Longhand::Delays(delays))?;
    list.push(Longhand::Counts(counts))?;
    list.push(Longhand::Directions(directions))?;
    list.push(Longhand::Fills(fills))?;
    list.push(Longhand::Paused(plays))?;
    Ok(list)
}
