// What a winning longhand says, each of its own property.
ghost use Rattle.std.specs.Prelude.{◌≡◌, pos, true, option_and_then, unwrap_or};
ghost use Rattle.std.specs.Option.{option_copied};
ghost use Rattle.page_model.specs.Cascade as definition;

use page_model::{Count, Direction, Easing, Fill, List, Longhand, Name, Rgba};

/// A length in hundredths of a pixel, 0 where there is none.
pub fn length(value: Option<&Longhand>) -> i32
    ensures { result ≡ unwrap_or (option_and_then definition.length_in (option_copied value.entry)) (pos 0) }
{
    match value {
        Some(Longhand::Left(length)) => *length,
        Some(Longhand::Top(length)) => *length,
        Some(Longhand::Width(length)) => *length,
        Some(Longhand::Height(length)) => *length,
        _ => 0,
    }
}

/// The colour, if one is declared.
pub fn colour(value: Option<&Longhand>) -> Option<Rgba>
    ensures { result ≡ option_and_then definition.colour_in (option_copied value.entry) }
{
    match value {
        Some(Longhand::Colour(colour)) => Some(*colour),
        _ => None,
    }
}

/// An opacity in thousandths, 1 where there is none.
pub fn opacity(value: Option<&Longhand>) -> u16
    ensures { result ≡ unwrap_or (option_and_then definition.opacity_in (option_copied value.entry)) 1000 }
{
    match value {
        Some(Longhand::Opacity(thousandths)) => *thousandths,
        _ => 1000,
    }
}

/// Whether an element is visible, as it is where nothing is said.
pub fn visibility(value: Option<&Longhand>) -> bool
    ensures { result ≡ unwrap_or (option_and_then definition.visibility_in (option_copied value.entry)) true }
{
    match value {
        Some(Longhand::Visibility(visible)) => *visible,
        _ => true,
    }
}

/// The z-index, 0 where there is none.
pub fn z_index(value: Option<&Longhand>) -> i32
    ensures { result ≡ unwrap_or (option_and_then definition.z_in (option_copied value.entry)) (pos 0) }
{
    match value {
        Some(Longhand::ZIndex(z)) => *z,
        _ => 0,
    }
}

/// The names of the animations, if they are declared.
pub fn names(value: Option<&Longhand>) -> Option<&List<Option<Name>>>
    ensures { option_copied result ≡ option_and_then definition.names_in (option_copied value.entry) }
{
    match value {
        Some(Longhand::Names(items)) => Some(items),
        _ => None,
    }
}

/// The durations, if they are declared.
pub fn durations(value: Option<&Longhand>) -> Option<&List<u32>>
    ensures { option_copied result ≡ option_and_then definition.durations_in (option_copied value.entry) }
{
    match value {
        Some(Longhand::Durations(items)) => Some(items),
        _ => None,
    }
}

/// The easings, if they are declared.
pub fn easings(value: Option<&Longhand>) -> Option<&List<Easing>>
    ensures { option_copied result ≡ option_and_then definition.easings_in (option_copied value.entry) }
{
    match value {
        Some(Longhand::Easings(items)) => Some(items),
        _ => None,
    }
}

/// The delays, if they are declared.
pub fn delays(value: Option<&Longhand>) -> Option<&List<i32>>
    ensures { option_copied result ≡ option_and_then definition.delays_in (option_copied value.entry) }
{
    match value {
        Some(Longhand::Delays(items)) => Some(items),
        _ => None,
    }
}

/// The iteration counts, if they are declared.
pub fn counts(value: Option<&Longhand>) -> Option<&List<Count>>
    ensures { option_copied result ≡ option_and_then definition.counts_in (option_copied value.entry) }
{
    match value {
        Some(Longhand::Counts(items)) => Some(items),
        _ => None,
    }
}

/// The directions, if they are declared.
pub fn directions(value: Option<&Longhand>) -> Option<&List<Direction>>
    ensures { option_copied result ≡ option_and_then definition.directions_in (option_copied value.entry) }
{
    match value {
        Some(Longhand::Directions(items)) => Some(items),
        _ => None,
    }
}

/// The fill modes, if they are declared.
pub fn fills(value: Option<&Longhand>) -> Option<&List<Fill>>
    ensures { option_copied result ≡ option_and_then definition.fills_in (option_copied value.entry) }
{
    match value {
        Some(Longhand::Fills(items)) => Some(items),
        _ => None,
    }
}

/// The play states, if they are declared.
pub fn paused(value: Option<&Longhand>) -> Option<&List<bool>>
    ensures { option_copied result ≡ option_and_then definition.paused_in (option_copied value.entry) }
{
    match value {
        Some(Longhand::Paused(items)) => Some(items),
        _ => None,
    }
}
