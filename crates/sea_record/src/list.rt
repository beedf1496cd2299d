//! Lists in a record's metadata: how many entries there are, and these.
ghost use Rattle.std.specs.Prelude.{◌≡◌, ◌^◌, ◌<◌, ◌++◌, length, All, OnOk, IfOk, MatchOption};
ghost use Rattle.sea_record.specs.Entries.{counted};
ghost use Rattle.sea_record.specs.Parts.{BeginsWithList, BeginsWithNoList};

use crate::entry::Entry;
use sea_base::{NoMemory, Sequence, push_u32, u32_at};
use std::alloc::Global;

const COUNT_BYTES: usize = 4;

/// Appends the bytes of a list.
pub fn push_list<T: Entry>(bytes: &mut Vec<u8>, items: &[T]) -> Result<(), NoMemory>
    requires few { length items.now < 2 ^ 32 }
    requires pushable { All T.pushable items.now }
    ensures { OnOk result (bytes.new.items ≡ bytes.old.items ++ counted T.spelled items.now) }
{
    push_u32(bytes, items.len() as u32)?;
    for item in items {
        item.push(bytes)?;
    }
    Ok(())
}

/// The list that the bytes begin with, and the bytes behind it.
pub fn read_list<T: Entry>(
    alloc: Global,
    bytes: &[u8],
) -> Result<Option<(Sequence<T>, &[u8])>, NoMemory>
    ensures { IfOk result (λ found. MatchOption found
        (BeginsWithNoList T.fits T.spelled bytes.now)
        (λ f. BeginsWithList T.fits T.spelled bytes.now f.0 f.1.now)) }
{
    if bytes.len() < COUNT_BYTES {
        return Ok(None);
    }
    let mut items = Sequence::new(alloc);
    let mut rest = &bytes[COUNT_BYTES..];
    for _ in 0..u32_at(bytes, 0) {
        let Some((item, behind)) = T::read(alloc, rest)? else {
            return Ok(None);
        };
        items.push(item)?;
        rest = behind;
    }
    Ok(Some((items, rest)))
}
