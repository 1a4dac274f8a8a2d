// The animations of an element.
ghost use Rattle.std.specs.Prelude.{◌≡◌, IfOk, option_and_then};
ghost use Rattle.css_reader.specs.SheetState.{set_named};
ghost use Rattle.page_model.specs.Cascade as definition;
ghost use Rattle.cascade_winners.specs.Views.{winners_as};
ghost use Rattle.cascade.specs.SetTables.{AreTables, kept_in};
ghost use Rattle.cascade.specs.Named.{animations_from};

use crate::items::item;
use crate::longhands::{counts, delays, directions, durations, easings, fills, names, paused};
use crate::properties::{COUNTS, DELAYS, DIRECTIONS, DURATIONS, EASINGS, FILLS, NAMES, PAUSED};
use crate::tables::Tables;
use cascade_winners::Winners;
use css_reader::Sheet;
use page_model::{Anim, Count, Direction, Easing, Fill, List, Name, NoMemory};
use std::alloc::Global;

// The easing `ease`.
const EASE: Easing = Easing::Cubic {
    x1: 250,
    y1: 100,
    x2: 250,
    y2: 1000,
};

// The number in the scene of the set that a name means, if it means one that names a property.
fn set_meant(sheet: &Sheet, tables: &Tables, name: &Option<Name>) -> Option<u32>
    requires { AreTables sheet.now.sets tables.now }
    ensures { result ≡ definition.set_meant (set_named sheet.now) sheet.now.sets name.now }
{
    match name {
        Some(name) => kept_number(sheet, tables, name),
        None => None,
    }
}

fn kept_number(sheet: &Sheet, tables: &Tables, name: &Name) -> Option<u32>
    requires { AreTables sheet.now.sets tables.now }
    ensures { result ≡ option_and_then (definition.kept_number sheet.now.sets) (set_named sheet.now name.now) }
{
    match sheet.set(name) {
        Some(number) => number_at(tables.numbers.as_slice(), number),
        None => None,
    }
}

fn number_at(numbers: &[Option<u32>], number: usize) -> Option<u32>
    ensures { result ≡ kept_in numbers.now number }
{
    match numbers.get(number) {
        Some(kept) => *kept,
        None => None,
    }
}

// The animation at a place of the list of names.
fn animation_at(winners: &Winners<'_>, place: usize, set: u32) -> Anim
    ensures { result ≡ definition.animation_at (winners_as winners.now) place set }
{
    Anim {
        set,
        duration: item(durations(winners.value(DURATIONS)), 0, place),
        delay: item(delays(winners.value(DELAYS)), 0, place),
        count: item(counts(winners.value(COUNTS)), Count::Times(1000), place),
        direction: item(
            directions(winners.value(DIRECTIONS)),
            Direction::Normal,
            place,
        ),
        fill: item(fills(winners.value(FILLS)), Fill::Absent, place),
        easing: item(easings(winners.value(EASINGS)), EASE, place),
        paused: item(paused(winners.value(PAUSED)), false, place),
    }
}

// The animations of some names, in their order.
fn animations_named(
    alloc: Global,
    sheet: &Sheet,
    tables: &Tables,
    winners: &Winners<'_>,
    names: &[Option<Name>],
) -> Result<List<Anim>, NoMemory>
    requires { AreTables sheet.now.sets tables.now }
    ensures { IfOk result (λ anims. anims ≡ animations_from sheet.now (winners_as winners.now) 0 names.now) }
{
    let mut anims = List::new(alloc);
    'naming: for place in 0..names.len() {
        if let Some(set) = set_meant(sheet, tables, &names[place]) {
            anims.push(animation_at(winners, place, set))?;
        }
    }
    Ok(anims)
}

/// The animations of an element: one for each name that means a set.
pub fn animations(
    alloc: Global,
    sheet: &Sheet,
    tables: &Tables,
    winners: &Winners<'_>,
) -> Result<List<Anim>, NoMemory>
    requires { AreTables sheet.now.sets tables.now }
    ensures { IfOk result (λ anims. anims
        ≡ definition.animations_won (set_named sheet.now) sheet.now.sets (winners_as winners.now)) }
{
    match names(winners.value(NAMES)) {
        Some(names) => animations_named(alloc, sheet, tables, winners, names.as_slice()),
        None => Ok(List::new(alloc)),
    }
}
