//! The fields that the header of a segment and that of a record share: the tail, and the roots.
ghost use Rattle.std.specs.Prelude.{◌≡◌, ◌+◌, ◌^◌, ◌<◌, ◌≤◌, ◌↔◌, ◌++◌, length, slice_range, IsTrue, OnOk, MatchOption};
ghost use Rattle.sea_base.specs.RootFields.{proot_bytes, root_bytes, IsPRoot, IsTail, IsRoot, IsRootFields, HasNoRootFields};

use crate::{
    Laddr, NoMemory, PRoot, Paddr, Root, Sum, Tail, is_zero, push_u32, push_u64, u32_at, u64_at,
};

/// How many bytes the fields take.
pub const ROOT_BYTES: usize = 56;

/// Appends the fields.
pub fn push_root_fields(bytes: &mut Vec<u8>, tail: &Tail, root: &Root) -> Result<(), NoMemory>
    ensures { OnOk result (bytes.new.items ≡ bytes.old.items ++ root_bytes tail.now root.now) }
{
    push_u64(bytes, tail.seq)?;
    push_u32(bytes, tail.place.0)?;
    push_u32(bytes, 0)?;
    push_proot(bytes, &root.lba)?;
    push_proot(bytes, &root.owners)?;
    push_u64(bytes, root.next.0)?;
    Ok(())
}

/// The tail and the roots that stand in the 56 bytes from `at` on, if they spell some.
pub fn root_fields_at(bytes: &[u8], at: usize) -> Option<(Tail, Root)>
    requires { at + 56 ≤ length bytes.now }
    ensures { let fields = slice_range bytes.now at (at + 56) in
        MatchOption result (HasNoRootFields fields) (λ x. IsRootFields fields x.0 x.1) }
{
    let fields = &bytes[at..at + ROOT_BYTES];
    let tail = Tail {
        seq: u64_at(fields, 0),
        place: Paddr(u32_at(fields, 8)),
    };
    let root = Root {
        lba: proot_at(fields, 16),
        owners: proot_at(fields, 32),
        next: Laddr(u64_at(fields, 48)),
    };
    if is_zero(&fields[12..16]) && is_tail(tail) && is_root(root) {
        Some((tail, root))
    } else {
        None
    }
}

/// Whether a record or a header may name this tail.
pub fn is_tail(tail: Tail) -> bool
    ensures { IsTrue result ↔ IsTail tail }
{
    tail.seq >= 1 && tail.seq < 1 << 63 && tail.place.0 < 1 << 24
}

/// Whether a record or a header may name these roots.
pub fn is_root(root: Root) -> bool
    ensures { IsTrue result ↔ IsRoot root }
{
    is_proot(root.lba) && is_proot(root.owners) && root.next.0 >= 2 && root.next.0 < 1 << 63
}

// Whether it may be the root of a tree, an empty one too.
fn is_proot(root: PRoot) -> bool
    ensures { IsTrue result ↔ IsPRoot root }
{
    root.height <= 8 && (root.height > 0 || root.at.0 == 0 && root.sum.0 == 0)
}

fn push_proot(bytes: &mut Vec<u8>, root: &PRoot) -> Result<(), NoMemory>
    ensures { OnOk result (bytes.new.items ≡ bytes.old.items ++ proot_bytes root.now) }
{
    push_u32(bytes, root.at.0)?;
    push_u32(bytes, root.height)?;
    push_u64(bytes, root.sum.0)?;
    Ok(())
}

fn proot_at(bytes: &[u8], at: usize) -> PRoot
    requires { at + 16 ≤ length bytes.now }
    ensures spelled { slice_range bytes.now at (at + 16) ≡ proot_bytes result }
    ensures block { result.at.0 < 2 ^ 32 }
    ensures height { result.height < 2 ^ 32 }
    ensures sum { result.sum.0 < 2 ^ 64 }
{
    PRoot {
        at: Paddr(u32_at(bytes, at)),
        height: u32_at(bytes, at + 4),
        sum: Sum(u64_at(bytes, at + 8)),
    }
}
