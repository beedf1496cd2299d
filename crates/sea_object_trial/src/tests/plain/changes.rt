//! What a plain server changes.

use crate::tests::plain::lists::{copy_of, find, put, take};
use crate::tests::plain::object::PlainObject;
use crate::tests::plain::spelling::{bytes_of, name_of, number_of};
use crate::tests::plain::{PlainObjects, Stop};
use std::alloc::{AllocError, Global};
use std::fmt::Write;

/// Does an operation that may change something, and appends its item.
pub fn change(
    alloc: Global,
    objects: &mut PlainObjects,
    words: &[&str],
    items: &mut String,
) -> Result<(), Stop> {
    let [word, name, others @ ..] = words else {
        return Err(Stop::Refused("NoWords"));
    };
    let name = name_of(alloc, *name)?;
    let object = match find(objects, &name) {
        Some(object) => object.copy(alloc)?,
        None if ["touch", "write", "zero"].contains(word) => PlainObject::new(alloc),
        None => return Err(Stop::Refused("NoObject")),
    };
    if *word == "remove" {
        take(objects, &name);
        items.push('-')?;
        return Ok(());
    }
    let changed = changed(alloc, object, *word, others, items)?;
    put(objects, name, changed)?;
    Ok(())
}

// The object with an operation done to it.
fn changed(
    alloc: Global,
    mut object: PlainObject,
    word: &str,
    others: &[&str],
    items: &mut String,
) -> Result<PlainObject, Stop> {
    if let ("omap_rmkeyrange", [from, to, bound]) = (word, others) {
        let (from, to) = (name_of(alloc, *from)?, name_of(alloc, *to)?);
        let gone = object.remove_range(alloc, &from, &to, number_of(*bound))?;
        write!(items, "n{gone}")?;
        return Ok(object);
    }
    items.push('-')?;
    if word.starts_with("omap") {
        change_omap(alloc, &mut object, word, others)?;
    } else if word.contains("attr") {
        change_attributes(alloc, &mut object, word, others)?;
    } else {
        change_bytes(alloc, &mut object, word, others)?;
    }
    Ok(object)
}

fn change_bytes(
    alloc: Global,
    object: &mut PlainObject,
    word: &str,
    others: &[&str],
) -> Result<(), AllocError> {
    match (word, others) {
        ("write", [offset, data]) => object.write(number_of(*offset), &bytes_of(alloc, *data)?),
        ("zero", [offset, length]) => {
            let mut zeros = Vec::new(alloc);
            zeros.resize(number_of(*length), 0)?;
            object.write(number_of(*offset), &zeros)
        }
        ("truncate", [size]) => object.bytes.resize(number_of(*size), 0),
        _ => Ok(()),
    }
}

fn change_attributes(
    alloc: Global,
    object: &mut PlainObject,
    word: &str,
    others: &[&str],
) -> Result<(), Stop> {
    match (word, others) {
        ("setattr", [key, value]) => {
            object.set_attribute(name_of(alloc, *key)?, bytes_of(alloc, *value)?)
        }
        ("rmattr", [key]) => {
            take(&mut object.attributes, &name_of(alloc, *key)?);
            Ok(())
        }
        _ => {
            object.attributes = Vec::new(alloc);
            Ok(())
        }
    }
}

fn change_omap(
    alloc: Global,
    object: &mut PlainObject,
    word: &str,
    others: &[&str],
) -> Result<(), Stop> {
    match word {
        "omap_setkeys" => object.set_keys(alloc, others),
        "omap_rmkeys" => {
            for key in others {
                take(&mut object.omap, &name_of(alloc, *key)?);
            }
            Ok(())
        }
        _ => {
            object.omap = Vec::new(alloc);
            Ok(())
        }
    }
}
