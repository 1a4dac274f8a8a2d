// How surely a layer is shown.

/// Whether a layer is shown: surely, surely not, or perhaps, where no more is known.
#[derive(Clone, Copy, Debug, PartialEq, Eq)]
pub enum Shown {
    Yes,
    No,
    Maybe,
}
