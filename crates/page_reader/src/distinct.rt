// Whether a name stands twice in a tag.
ghost use Rattle.std.specs.Prelude.{◌≡◌, [], IfOk, map, not};
ghost use Rattle.std.specs.Str.{str_to_ascii_lowercase};
ghost use Rattle.page_tokens.specs.HtmlShown.{shown_attribute};
ghost use Rattle.page_reader.specs.PageNames.{IsAdded, has};
ghost use Rattle.page_reader.specs.PageSymbols.{are_distinct};

use page_model::NoMemory;
use page_tokens::HtmlAttribute;
use std::alloc::Global;
use std::collections::BTreeSet;
use std::marker::Model;

/// The names that were seen, in lower case.
#[derive(Drop)]
struct Names {
    names: BTreeSet<Vec<u8>>,
}

impl Model for Names {
    ghost use Rattle.std.specs.Prelude.{List, ℕ};
    ghost use Rattle.page_reader.specs.PageNames.{texts};

    ghost Value = { List (List ℕ) };

    ghost view = { λ n. texts n.names.keys };
}

/// No names.
fn no_names(alloc: Global) -> Names
    ensures { result ≡ [] }
{
    Names {
        names: BTreeSet::new(alloc),
    }
}

/// Adds a name to those that were seen, and tells whether it wasn't among them in any case.
fn add(alloc: Global, names: &mut Names, name: &[u8]) -> Result<bool, NoMemory>
    ensures new { IfOk result (λ new. new ≡ not (has names.old (str_to_ascii_lowercase name.now))) }
    ensures names { IfOk result (λ _. IsAdded names.old (str_to_ascii_lowercase name.now) names.new) }
{
    let lower = name.to_ascii_lowercase(alloc)?;
    let new = names.names.insert(lower)?;
    Ok(new)
}

/// Whether no name stands twice among the attributes, in any case.
pub(crate) fn are_distinct(
    alloc: Global,
    attributes: &[HtmlAttribute<'_>],
) -> Result<bool, NoMemory>
    ensures { IfOk result (λ distinct. distinct ≡ are_distinct (map shown_attribute attributes.now)) }
{
    let mut names = no_names(alloc);
    let mut left = attributes.len();
    'adding: while left > 0 {
        left -= 1;
        if !add(alloc, &mut names, attributes[left].name)? {
            return Ok(false);
        }
    }
    Ok(true)
}
