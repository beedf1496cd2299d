//! Where data blocks stand, and where a range of bytes meets one.
ghost use Rattle.std.specs.Prelude.{◌≡◌, ◌+◌, ◌-◌, ◌*◌, ◌<◌, ◌≤◌, min};
ghost use Rattle.sea_data.specs.Bytes.{block_address};

use sea_base::Laddr;
use sea_object::Onode;

/// The bytes of a data block.
pub(crate) const BYTES: u32 = 4096;

/// The address of a data block.
pub(crate) fn address_of(onode: &Onode, index: u32) -> Laddr
    ensures { result.0 ≡ block_address onode.now.base.0 index }
{
    Laddr(onode.base.0.wrapping_add(2 + u64::from(index)))
}

/// The part of a range of bytes that lies in one data block.
#[derive(Clone, Copy, Debug)]
pub(crate) struct Part {
    /// Where it begins in the block.
    pub place: usize,
    /// Where it begins in the range.
    pub from: usize,
    /// Where it ends in the range.
    pub to: usize,
}

impl Part {
    /// The part of so many bytes from an offset on that lies in a block.
    pub fn of(index: u32, offset: u32, count: usize) -> Part
        requires limit { index < 8192 }
        requires begins { 4096 * index < offset + count }
        requires ends { offset < 4096 * (index + 1) }
        requires some { 1 ≤ count }
        ensures place { result.place ≡ offset - 4096 * index }
        ensures from { result.from ≡ 4096 * index - offset }
        ensures to { result.to ≡ min (4096 * (index + 1) - offset) count }
        ensures order { result.from < result.to }
        ensures room { result.place + (result.to - result.from) ≤ 4096 }
        ensures within { result.to ≤ count }
    {
        let start = index * BYTES;
        let end = (start + BYTES - offset) as usize;
        Part {
            place: offset.saturating_sub(start) as usize,
            from: start.saturating_sub(offset) as usize,
            to: end.min(count),
        }
    }
}
