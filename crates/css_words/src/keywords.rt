// Keywords, which are compared without regard to case.
ghost use Rattle.std.specs.Prelude.{◌≡◌, map};
ghost use Rattle.css_words.specs.Keywords.{is_keyword, lookup};

/// A keyword in lower case, with what it means.
#[derive(Clone, Copy)]
pub struct Keyword<T> {
    pub word: &'static [u8],
    pub value: T,
}

/// Whether the bytes are this keyword, in any case.
pub fn is_keyword(keyword: &[u8], bytes: &[u8]) -> bool
    ensures { result ≡ is_keyword keyword.now bytes.now }
{
    bytes.eq_ignore_ascii_case(keyword)
}

/// What a table says of the bytes.
pub fn find<T: Copy>(table: &[Keyword<T>], bytes: &[u8]) -> Option<T>
    ensures { result ≡ lookup (map (λ k. (k.word.now, k.value)) table.now) bytes.now }
{
    let mut rest = table;
    'finding: while let Some((first, more)) = rest.split_first() {
        if is_keyword(first.word, bytes) {
            return Some(first.value);
        }
        rest = more;
    }
    None
}
