// The items of the lists of animation values.
ghost use Rattle.std.specs.Prelude.{◌≡◌, ◌∷◌, [], unwrap_or};
ghost use Rattle.std.specs.Option.{option_copied};
ghost use Rattle.page_model.specs.Cascade.{item_for};

use page_model::List;

/// The item for the animation at a place: a list is repeated, or cut, and where there is none each item is the initial one.
pub fn item<T: Copy>(items: Option<&List<T>>, initial: T, place: usize) -> T
    ensures { result ≡ item_for (unwrap_or (option_copied items.entry) (initial ∷ [])) initial place }
{
    match items {
        Some(items) => repeated(items.as_slice(), initial, place),
        None => initial,
    }
}

// The item of a list at a place, the list repeated.
fn repeated<T: Copy>(items: &[T], initial: T, place: usize) -> T
    ensures { result ≡ item_for items.now initial place }
{
    if items.is_empty() {
        return initial;
    }
    match items.get(place % items.len()) {
        Some(item) => *item,
        None => initial,
    }
}
