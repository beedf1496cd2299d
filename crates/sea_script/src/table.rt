//! The table of operations: how each is spelled.
ghost use Rattle.std.specs.Prelude.{◌≡◌, ◌↔◌, IsTrue, MatchOption};
ghost use Rattle.std.specs.List.{AllByRecursion};
ghost use Rattle.sea_script.specs.Reading.{IsRow};
ghost use Rattle.sea_script.specs.Table.{MayFollow, further_kind, word_of};

/// The kind of a word that an operation takes.
#[derive(Clone, Copy, Debug, PartialEq, Eq)]
pub enum Kind {
    /// The name of an object, or a key.
    Name,
    /// A number of 1 to 9 digits.
    Number,
    /// Bytes, as `x` and digits.
    Bytes,
}

/// What may stand behind the words that an operation always takes.
#[derive(Clone, Copy, Debug, PartialEq, Eq)]
pub enum Further {
    /// Nothing.
    Nothing,
    /// One name, or nothing.
    Name,
    /// Any number of names.
    Names,
    /// Any number of names, each with bytes behind it.
    Pairs,
}

impl Further {
    /// Whether so many words may stand there.
    pub fn may_follow(self, count: usize) -> bool
        ensures { IsTrue result ↔ MayFollow self count }
    {
        match self {
            Further::Nothing => count == 0,
            Further::Name => count <= 1,
            Further::Names => true,
            Further::Pairs => count % 2 == 0,
        }
    }

    /// The kind of the word at this index of them.
    pub fn kind(self, index: usize) -> Kind
        ensures { result ≡ further_kind self index }
    {
        match self {
            Further::Pairs if index % 2 == 1 => Kind::Bytes,
            _ => Kind::Name,
        }
    }
}

/// What an operation is called.
#[derive(Clone, Copy, Debug, PartialEq, Eq)]
pub enum Verb {
    Touch,
    Write,
    Zero,
    Truncate,
    Remove,
    SetAttr,
    RmAttr,
    RmAttrs,
    OmapSetKeys,
    OmapRmKeys,
    OmapRmKeyRange,
    OmapClear,
    Read,
    Stat,
    GetAttr,
    GetAttrs,
    OmapGet,
    OmapList,
    List,
}

/// A row of the table: an operation's word, what it is called, the kinds of the words behind it,
/// and what may follow these.
pub type Row = (&'static str, Verb, &'static [Kind], Further);

/// A row for each operation, in the order of `Verb`.
pub const TABLE: [Row; 19] = [
    ("touch", Verb::Touch, &[Kind::Name], Further::Nothing),
    (
        "write",
        Verb::Write,
        &[Kind::Name, Kind::Number, Kind::Bytes],
        Further::Nothing,
    ),
    (
        "zero",
        Verb::Zero,
        &[Kind::Name, Kind::Number, Kind::Number],
        Further::Nothing,
    ),
    (
        "truncate",
        Verb::Truncate,
        &[Kind::Name, Kind::Number],
        Further::Nothing,
    ),
    ("remove", Verb::Remove, &[Kind::Name], Further::Nothing),
    (
        "setattr",
        Verb::SetAttr,
        &[Kind::Name, Kind::Name, Kind::Bytes],
        Further::Nothing,
    ),
    (
        "rmattr",
        Verb::RmAttr,
        &[Kind::Name, Kind::Name],
        Further::Nothing,
    ),
    ("rmattrs", Verb::RmAttrs, &[Kind::Name], Further::Nothing),
    (
        "omap_setkeys",
        Verb::OmapSetKeys,
        &[Kind::Name, Kind::Name, Kind::Bytes],
        Further::Pairs,
    ),
    (
        "omap_rmkeys",
        Verb::OmapRmKeys,
        &[Kind::Name, Kind::Name],
        Further::Names,
    ),
    (
        "omap_rmkeyrange",
        Verb::OmapRmKeyRange,
        &[Kind::Name, Kind::Name, Kind::Name, Kind::Number],
        Further::Nothing,
    ),
    (
        "omap_clear",
        Verb::OmapClear,
        &[Kind::Name],
        Further::Nothing,
    ),
    (
        "read",
        Verb::Read,
        &[Kind::Name, Kind::Number, Kind::Number],
        Further::Nothing,
    ),
    ("stat", Verb::Stat, &[Kind::Name], Further::Nothing),
    (
        "getattr",
        Verb::GetAttr,
        &[Kind::Name, Kind::Name],
        Further::Nothing,
    ),
    ("getattrs", Verb::GetAttrs, &[Kind::Name], Further::Nothing),
    (
        "omap_get",
        Verb::OmapGet,
        &[Kind::Name, Kind::Name],
        Further::Nothing,
    ),
    (
        "omap_list",
        Verb::OmapList,
        &[Kind::Name, Kind::Number],
        Further::Name,
    ),
    ("list", Verb::List, &[Kind::Number], Further::Name),
];

/// The row of the operation that has this word.
pub fn row_of(word: &[u8]) -> Option<Row>
    ensures { MatchOption result
        ((verb : Verb) → word.now ≡ word_of verb → ⊥)
        (λ row. IsRow row × (word.now ≡ word_of row.1)) }
{
    row_in(&TABLE, word)
}

fn row_in(rows: &[Row], word: &[u8]) -> Option<Row>
    requires { AllByRecursion IsRow rows.now }
    ensures { MatchOption result
        (AllByRecursion (λ row. word.now ≡ row.0.now → ⊥) rows.now)
        (λ row. IsRow row × (word.now ≡ row.0.now)) }
{
    for row in rows {
        if row.0.as_bytes() == word {
            return Some(*row);
        }
    }
    None
}
