//! Bytes in parts.
ghost use Rattle.std.specs.Prelude.{◌≡◌, ◌∷◌, ◌==◌};
ghost use Rattle.std.specs.List.{position, slice_split};
ghost use Rattle.std.specs.Iterator.{YieldsFirstRef, item_count};
ghost use Rattle.sea_script.specs.Reading.{left, parts_left};

/// The parts of bytes that a separator cuts, of which there is one more than separators.
#[derive(Drop)]
pub struct Parts<'a> {
    separator: u8,
    rest: Option<&'a [u8]>,
}

impl<'a> Parts<'a> {
    /// The parts of these bytes.
    pub fn new(separator: u8, bytes: &'a [u8]) -> Parts<'a>
        ensures { left result ≡ slice_split (λ b. b == separator) bytes.now }
    {
        Parts {
            separator,
            rest: Some(bytes),
        }
    }
}

impl<'a> Iterator for Parts<'a> {
    type Item = &'a [u8];

    ghost next_gives = { YieldsFirstRef left };

    ghost remaining = { item_count left };

    fn next(&mut self) -> Option<&'a [u8]> {
        let (part, others) = cut(self.separator, self.rest?);
        self.rest = others;
        Some(part)
    }
}

// The first part, and the bytes behind its separator.
fn cut(separator: u8, bytes: &[u8]) -> (&[u8], Option<&[u8]>)
    ensures { slice_split (λ b. b == separator) bytes.now ≡
        result.0.now ∷ parts_left separator result.1 }
{
    match first_of(separator, bytes) {
        None => (bytes, None),
        Some(end) => (&bytes[..end], Some(&bytes[end + 1..])),
    }
}

// Where the separator stands first.
fn first_of(separator: u8, bytes: &[u8]) -> Option<usize>
    ensures { result ≡ position (λ b. b == separator) bytes.now }
{
    bytes.iter().position(|b| *b == separator)
}
