//! What a plain server answers where it changes nothing.

use crate::tests::plain::PlainObjects;
use crate::tests::plain::lists::{behind, find, least};
use crate::tests::plain::object::PlainObject;
use crate::tests::plain::spelling::{name_of, number_of, push_bytes, push_name};
use std::alloc::{AllocError, Global};
use std::fmt::Write;

/// Appends the item of an operation that changes nothing, and tells whether it is one.
pub fn answer(
    alloc: Global,
    objects: &PlainObjects,
    words: &[&str],
    items: &mut String,
) -> Result<bool, AllocError> {
    let [word, name, others @ ..] = words else {
        return Ok(false);
    };
    if *word == "list" {
        push_names(alloc, objects, number_of(*name), others, items)?;
        return Ok(true);
    }
    match find(objects, &name_of(alloc, *name)?) {
        Some(object) => answer_of(alloc, object, *word, others, items),
        None => {
            let asks = [
                "read",
                "stat",
                "getattr",
                "getattrs",
                "omap_get",
                "omap_list",
            ];
            let is_asked = asks.contains(word);
            if is_asked {
                items.push_str("none")?;
            }
            Ok(is_asked)
        }
    }
}

// The same of an object that is there.
fn answer_of(
    alloc: Global,
    object: &PlainObject,
    word: &str,
    others: &[&str],
    items: &mut String,
) -> Result<bool, AllocError> {
    match (word, others) {
        ("stat", _) => {
            let size = object.bytes.len();
            write!(items, "n{size}")?;
        }
        ("read", [offset, length]) => {
            push_part(alloc, object, number_of(*offset), number_of(*length), items)?
        }
        ("getattr", [key]) => push_value(alloc, &object.attributes, *key, items)?,
        ("omap_get", [key]) => push_value(alloc, &object.omap, *key, items)?,
        ("getattrs", _) => push_pairs(alloc, &object.attributes, 64, &[], items)?,
        ("omap_list", [limit, after @ ..]) => {
            push_pairs(alloc, &object.omap, number_of(*limit), after, items)?
        }
        _ => return Ok(false),
    }
    Ok(true)
}

fn push_part(
    alloc: Global,
    object: &PlainObject,
    offset: usize,
    length: usize,
    items: &mut String,
) -> Result<(), AllocError> {
    let mut part = Vec::new(alloc);
    for byte in object.bytes.iter().skip(offset).take(length) {
        part.push(*byte)?;
    }
    push_bytes(items, &part)
}

fn push_value(
    alloc: Global,
    values: &[(Vec<u8>, Vec<u8>)],
    key: &str,
    items: &mut String,
) -> Result<(), AllocError> {
    match find(values, &name_of(alloc, key)?) {
        Some(value) => push_bytes(items, value),
        None => items.push_str("none"),
    }
}

// Where a listing begins that may name what it goes on behind.
fn start(alloc: Global, after: &[&str]) -> Result<Vec<u8>, AllocError> {
    match after {
        [word, ..] => behind(alloc, &name_of(alloc, *word)?),
        [] => Ok(Vec::new(alloc)),
    }
}

fn push_pairs(
    alloc: Global,
    values: &[(Vec<u8>, Vec<u8>)],
    limit: usize,
    after: &[&str],
    items: &mut String,
) -> Result<(), AllocError> {
    let mut from = start(alloc, after)?;
    let mut listed = String::new(alloc);
    let mut count = 0u32;
    for _ in 0..limit {
        if let Some((key, value)) = least(values, &from, None) {
            count = count.saturating_add(1);
            listed.push(' ')?;
            push_name(&mut listed, key)?;
            listed.push(' ')?;
            push_bytes(&mut listed, value)?;
            from = behind(alloc, key)?;
        }
    }
    write!(items, "p{count}")?;
    items.push_str(listed.as_str())
}

fn push_names(
    alloc: Global,
    objects: &PlainObjects,
    limit: usize,
    after: &[&str],
    items: &mut String,
) -> Result<(), AllocError> {
    let mut from = start(alloc, after)?;
    let mut listed = String::new(alloc);
    let mut count = 0u32;
    for _ in 0..limit {
        if let Some((name, _)) = least(objects, &from, None) {
            count = count.saturating_add(1);
            listed.push(' ')?;
            push_name(&mut listed, name)?;
            from = behind(alloc, name)?;
        }
    }
    write!(items, "l{count}")?;
    items.push_str(listed.as_str())
}
