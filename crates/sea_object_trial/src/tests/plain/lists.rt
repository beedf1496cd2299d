//! Lists of things under names, in no order.

use std::alloc::{AllocError, Global};

/// Things under names.
pub type List<T> = Vec<(Vec<u8>, T)>;

/// What stands under a name.
pub fn find<'a, T>(list: &'a [(Vec<u8>, T)], name: &[u8]) -> Option<&'a T> {
    for entry in list {
        if entry.0.as_slice() == name {
            return Some(&entry.1);
        }
    }
    None
}

/// The entry of the least name that is not below `from`, and is below `to` where that is given.
pub fn least<'a, T>(
    list: &'a [(Vec<u8>, T)],
    from: &[u8],
    to: Option<&[u8]>,
) -> Option<&'a (Vec<u8>, T)> {
    let mut least: Option<&'a (Vec<u8>, T)> = None;
    for entry in list {
        let name = entry.0.as_slice();
        let is_within = from <= name && to.is_none_or(|end| name < end);
        if is_within && least.is_none_or(|other| name < other.0.as_slice()) {
            least = Some(entry);
        }
    }
    least
}

/// The least name that may stand behind one.
pub fn behind(alloc: Global, name: &[u8]) -> Result<Vec<u8>, AllocError> {
    let mut next = name.to_vec(alloc)?;
    next.push(0)?;
    Ok(next)
}

/// Takes away what stands under a name.
pub fn take<T: Drop>(list: &mut List<T>, name: &[u8]) {
    list.retain(|entry| entry.0.as_slice() != name);
}

/// Puts a thing under a name, in the place of one that stood there.
pub fn put<T: Drop>(list: &mut List<T>, name: Vec<u8>, thing: T) -> Result<(), AllocError> {
    take(list, &name);
    list.push((name, thing))?;
    Ok(())
}

/// A copy of values under names.
pub fn copy_of(alloc: Global, list: &[(Vec<u8>, Vec<u8>)]) -> Result<List<Vec<u8>>, AllocError> {
    let mut copy = Vec::new(alloc);
    for (name, value) in list {
        copy.push((name.clone()?, value.clone()?))?;
    }
    Ok(copy)
}
