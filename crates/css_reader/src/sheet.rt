// A style sheet: its rules, and its keyframe sets by name.
ghost use Rattle.std.specs.Prelude.{◌≡◌, ◌<◌, ◌++◌, ◌∷◌, [], None, length, slice_set, OnErr, OnOk};
ghost use Rattle.std.specs.Map.{lookup};
ghost use Rattle.std.specs.Str.{bytes_eq};
ghost use Rattle.indexmap.specs.IndexMap.{spare};
ghost use Rattle.css_reader.specs.NameTable.{shown_names};
ghost use Rattle.css_reader.specs.SheetState.{no_rules, set_named, with_rule, with_set, AreNumbered, IsNumbered};

use indexmap::IndexMap;
use page_model::{KeyframeSet, List, Name, NoMemory, Rule};
use std::alloc::Global;
use std::marker::Model;
use std::mem;

/// The rules of a style sheet in their order, its keyframe sets, and for each name of a set its number, which is
/// its place among the sets.
#[derive(Drop)]
pub struct Sheet {
    rules: List<Rule>,
    sets: List<KeyframeSet>,
    numbers: IndexMap<Vec<u8>, usize>,
}

impl Model for Sheet {
    ghost use Rattle.css_reader.specs.NameTable.{shown_names};
    ghost use Rattle.css_reader.specs.SheetState.{SheetState, AreNumbered};

    ghost Value = { SheetState };

    ghost view = { λ s. record {
      rules = s.rules;
      sets = s.sets;
      names = shown_names s.numbers.entries;
    } };

    ghost invariant = { λ s. AreNumbered s.sets (shown_names s.numbers.entries) };
}

impl Sheet {
    /// A sheet with no rule and no keyframe set, which takes no memory.
    pub fn new(alloc: Global) -> Sheet
        ensures { result ≡ no_rules }
    {
        Sheet {
            rules: List::new(alloc),
            sets: List::new(alloc),
            numbers: IndexMap::new(alloc),
        }
    }

    /// The rules, in the order in which they were put.
    pub fn rules(&self) -> &List<Rule>
        ensures { result.now ≡ self.now.rules }
    {
        &self.rules
    }

    /// How many keyframe sets there are.
    pub fn sets(&self) -> usize
        ensures count { result ≡ length self.now.sets }
        ensures numbered { IsNumbered self.now }
    {
        self.sets.len()
    }

    /// The keyframe sets, in the order of their numbers.
    pub fn keyframe_sets(&self) -> &List<KeyframeSet>
        ensures { result.now ≡ self.now.sets }
    {
        &self.sets
    }

    /// The number of the keyframe set of a name, `None` exactly where none has it.
    pub fn set(&self, name: &Name) -> Option<usize>
        ensures { result ≡ set_named self.now name.now }
    {
        number_of(&self.numbers, name.bytes())
    }

    /// The keyframe sets, in the order of their numbers. It takes no memory, and drops the rest.
    pub fn into_sets(self) -> List<KeyframeSet>
        ensures { result ≡ self.sets }
    {
        let Sheet { sets, .. } = self;
        sets
    }

    /// Puts a rule last. A refused one is dropped, and the sheet stays as it was.
    pub fn push_rule(&mut self, rule: Rule) -> Result<(), NoMemory>
        ensures ok { OnOk result (self.new ≡ with_rule self.old rule) }
        ensures err { OnErr result (self.new ≡ self.old) }
    {
        self.rules.push(rule)
    }

    /// Puts the keyframe set of a name: in the place of the set that has the name, or last. A refused one is
    /// dropped, and the sheet stays as it was.
    pub fn put_set(&mut self, alloc: Global, name: &[u8], set: KeyframeSet) -> Result<(), NoMemory>
        ensures ok { OnOk result (self.new ≡ with_set self.old name.now set) }
        ensures err { OnErr result (self.new ≡ self.old) }
    {
        match number_of(&self.numbers, name) {
            Some(number) => {
                replace_at(&mut self.sets, alloc, number, set);
                Ok(())
            }
            None => add(&mut self.sets, &mut self.numbers, alloc, name, set),
        }
    }
}

/// The number of a name, `None` exactly where the table hasn't the name.
fn number_of(numbers: &IndexMap<Vec<u8>, usize>, name: &[u8]) -> Option<usize>
    ensures { result ≡ lookup (bytes_eq name.now) (shown_names numbers.now.entries) }
{
    numbers.get(name).copied()
}

/// Puts a set in the place of another.
fn replace_at(sets: &mut List<KeyframeSet>, alloc: Global, number: usize, set: KeyframeSet)
    requires { number < length sets.old }
    ensures { sets.new ≡ slice_set sets.old number set }
{
    let mut items = mem::replace(sets, List::new(alloc)).into_vec();
    items[number] = set;
    *sets = List::from_vec(items);
}

/// Gives a new name its number, where the table has room.
fn put_name(numbers: &mut IndexMap<Vec<u8>, usize>, name: Vec<u8>, number: usize)
    requires new_name { lookup (bytes_eq name.items) (shown_names numbers.old.entries) ≡ None }
    requires room { 0 < spare numbers.old }
    ensures { shown_names numbers.new.entries ≡ shown_names numbers.old.entries ++ (name.items, number) ∷ [] }
{
    // There is room, so this has no error.
    let _ = numbers.insert(name, number);
}

/// Puts a set last, with a new name. Where memory is refused both stay as they were.
fn add(
    sets: &mut List<KeyframeSet>,
    numbers: &mut IndexMap<Vec<u8>, usize>,
    alloc: Global,
    name: &[u8],
    set: KeyframeSet,
) -> Result<(), NoMemory>
    requires new_name { lookup (bytes_eq name.now) (shown_names numbers.old.entries) ≡ None }
    requires numbered { AreNumbered sets.old (shown_names numbers.old.entries) }
    ensures sets { OnOk result (sets.new ≡ sets.old ++ set ∷ []) }
    ensures names { OnOk result (
        shown_names numbers.new.entries ≡ shown_names numbers.old.entries ++ (name.now, length sets.old) ∷ []) }
    ensures sets_kept { OnErr result (sets.new ≡ sets.old) }
    ensures names_kept { OnErr result (shown_names numbers.new.entries ≡ shown_names numbers.old.entries) }
    ensures numbered { AreNumbered sets.new (shown_names numbers.new.entries) }
{
    let key = Vec::from_slice(alloc, name)?;
    numbers.reserve(1)?;
    let number = sets.len();
    sets.push(set)?;
    put_name(numbers, key, number);
    Ok(())
}
