//! The two kinds of trees of physical nodes.
ghost use Rattle.std.specs.Prelude.{◌≡◌, ◌↔◌, IsTrue};
ghost use Rattle.sea_ptree.specs.Node.{word, MayStand};

use sea_base::Slot;

/// Which tree a node is of: its block begins with the tree's word, and the fields of a leaf mean
/// what they mean there.
#[derive(Clone, Copy, Debug, PartialEq, Eq)]
pub enum Kind {
    /// From logical addresses to their slots.
    Mapping,
    /// From blocks to the addresses that own them, which stand as versions.
    Owners,
}

impl Kind {
    /// The word that a node's block begins with.
    pub fn word(self) -> &'static [u8; 4]
        ensures { result.now ≡ word self }
    {
        match self {
            Kind::Mapping => b"SLBA",
            Kind::Owners => b"SOWN",
        }
    }

    /// Whether a node of a level may have a slot with these fields.
    pub fn admits(self, level: u32, slot: Slot) -> bool
        ensures { IsTrue result ↔ MayStand self level slot }
    {
        if level > 0 {
            return slot.version.0 == 0;
        }
        match self {
            Kind::Mapping => true,
            Kind::Owners => slot.at.0 == 0 && slot.sum.0 == 0,
        }
    }
}
