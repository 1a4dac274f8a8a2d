// Why a page is refused.

/// Why the bytes of a page are refused. Places are bytes of the file, and elements are told by their number, of which
/// the body's is 0.
#[derive(Clone, Copy, Debug, PartialEq, Eq)]
pub enum PageRefusal {
    /// There are more than 1,048,576 of them.
    TooLong,
    /// They spell no page, and this is the place where they cease to.
    BadText { at: u32 },
    /// They spell a page of more than 64 boxes.
    TooManyBoxes,
    /// In style text a token can't stand there, or the text ends too soon.
    BadSheet { at: u32 },
    /// In style text no property has this name.
    UnknownProperty { at: u32 },
    /// In style text the tokens spell no value.
    BadValue { at: u32 },
    /// In style text a block of keyframes may not have this.
    BadKeyframes { at: u32 },
    /// In style text a value is past a limit.
    OverLimit { at: u32 },
    /// An element lacks its place, size or colour.
    NotPlaced { index: u16 },
    /// The body has a property that only a box may have.
    BodyProperty,
    /// The winning list of animation names has more than eight items.
    TooManyAnimations { index: u16 },
}
