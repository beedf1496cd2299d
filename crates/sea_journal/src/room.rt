//! The rule of room: whose record is still taken.
ghost use Rattle.std.specs.Prelude.{◌↔◌, IsTrue};
ghost use Rattle.sea_journal.specs.Room.{Takes};

/// For whom a record is written. A writer leaves segments to those who make room.
#[derive(Clone, Copy, Debug, PartialEq, Eq)]
pub enum Who {
    /// A client's transaction.
    Write,
    /// A step that trims the journal or moves blocks.
    House,
    /// A step whose record frees a segment.
    Free,
    /// An opening.
    Mount,
}

/// Whether a record of `need` blocks is taken, where `rest` blocks are left in the open segment and
/// `empty` segments are empty.
pub fn takes(who: Who, need: u32, rest: u32, empty: u32) -> bool
    ensures { IsTrue result ↔ Takes who need rest empty }
{
    match who {
        Who::Write => need <= rest && empty >= 2 || empty >= 3,
        Who::House => need <= rest || empty >= 2,
        Who::Free | Who::Mount => need <= rest || empty >= 1,
    }
}
