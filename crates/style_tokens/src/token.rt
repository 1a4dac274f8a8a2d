// The tokens.
use page_model::Place;

/// The kind of a token of style text: CSS Syntax Module Level 3, as a profile.
#[derive(Clone, Copy, Debug, PartialEq, Eq)]
pub enum CssKind {
    /// An optional `-`, a letter or `_`, then letters, digits, `_` and `-`.
    Ident,
    /// An identifier directly followed by `(`.
    Function,
    /// `@` directly followed by an identifier.
    AtWord,
    /// `#` directly followed by letters, digits, `_` and `-`.
    Hash,
    /// A sign or none; digits, digits with a point between them, or a point and digits; then `%`, a unit or nothing.
    Number,
    Colon,
    Semicolon,
    Comma,
    LeftBrace,
    RightBrace,
    RightParen,
    Bang,
    /// A `.` that begins no number.
    Dot,
}

/// A token of style text, and the bytes of the file that are its own.
#[derive(Clone, Copy, Debug, PartialEq, Eq)]
pub struct CssToken {
    pub kind: CssKind,
    pub place: Place,
}
