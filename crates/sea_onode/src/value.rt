//! The bytes of an onode.
ghost use Rattle.std.specs.Prelude.{◌≡◌, ◌+◌, ℕ, List, Some, IfOk, IfSome};
ghost use Rattle.sea_object.specs.declared.onode.Onode.{Onode as AnOnode};
ghost use Rattle.sea_base.specs.Space.{Store};
ghost use Rattle.sea_onode.specs.Onodes.{Onodes};
ghost use Rattle.sea_onode.specs.Order.{AreInOrder, Fits};
ghost use Rattle.sea_onode.specs.Spelling.{Spells};

use sea_base::{Data, Laddr, NoMemory, push_u32, push_u64, u32_at, u64_at};
use sea_object::Onode;
use std::alloc::Global;

/// How many bytes an onode takes.
const ONODE_BYTES: usize = 20;

/// How many addresses an object takes.
pub const OBJECT_ADDRESSES: u64 = 4098;

/// The onode of a new object, whose addresses begin at this one.
pub fn new_onode(base: Laddr) -> Onode
    ensures made { result ≡ record { base = base; size = 0; attrs = 0; keys = 0 } }
    ensures fits { (store : Store) (onodes : Onodes) (name : List ℕ)
        → AreInOrder store base.0 onodes
        → AreInOrder store (base.0 + OBJECT_ADDRESSES) onodes
        × Fits store (base.0 + OBJECT_ADDRESSES) onodes name result }
{
    Onode {
        base,
        size: 0,
        attrs: 0,
        keys: 0,
    }
}

/// The bytes that spell an onode.
pub fn spell_onode(alloc: Global, onode: Onode) -> Result<Data, NoMemory>
    ensures { IfOk result (λ bytes. Spells bytes onode) }
{
    let mut bytes = Vec::with_capacity(alloc, ONODE_BYTES)?;
    push_u64(&mut bytes, onode.base.0)?;
    push_u32(&mut bytes, onode.size)?;
    push_u32(&mut bytes, onode.attrs)?;
    push_u32(&mut bytes, onode.keys)?;
    Data::from_vec(bytes)
}

/// The onode that bytes spell, if they spell one.
pub fn read_onode(bytes: &[u8]) -> Option<Onode>
    ensures spelled { IfSome result (Spells bytes.now) }
    ensures only { (onode : AnOnode) → Spells bytes.now onode → result ≡ Some onode }
{
    if bytes.len() != ONODE_BYTES {
        return None;
    }
    Some(Onode {
        base: Laddr(u64_at(bytes, 0)),
        size: u32_at(bytes, 8),
        attrs: u32_at(bytes, 12),
        keys: u32_at(bytes, 16),
    })
}
