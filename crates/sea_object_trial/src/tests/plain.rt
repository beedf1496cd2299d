//! A plain server of requests, written apart from the crates that it is held against: a list of
//! objects, each with a list of bytes and two lists of pairs, none of them in order. It takes
//! operations as they stand in a script, and appends the text of each item. A request is tried on a
//! copy of all objects.

mod answers;
mod changes;
mod lists;
mod object;
mod spelling;

use answers::answer;
use changes::change;
use lists::List;
use object::PlainObject;
use std::alloc::{AllocError, AllocFailed, Global};
use std::fmt::Write;

/// Objects under their names.
pub type PlainObjects = List<PlainObject>;

/// Why an operation came to nothing.
#[derive(Clone, Copy, Debug)]
pub enum Stop {
    NoMemory,
    Refused(&'static str),
}

impl From<AllocError> for Stop {
    fn from(_: AllocError) -> Self {
        Stop::NoMemory
    }
}

impl<T: Drop> From<AllocFailed<T>> for Stop {
    fn from(_: AllocFailed<T>) -> Self {
        Stop::NoMemory
    }
}

/// Serves a request, and appends the text of its reply.
pub fn serve_plainly(
    alloc: Global,
    objects: &mut PlainObjects,
    operations: &[String],
    text: &mut String,
) -> Result<(), AllocError> {
    let mut tried = copy_of_all(alloc, objects)?;
    let mut items = String::from_str(alloc, "done")?;
    for (index, operation) in operations.iter().enumerate() {
        match run(alloc, &mut tried, operation.as_str(), &mut items) {
            Ok(()) => {}
            Err(Stop::NoMemory) => return Err(AllocError),
            Err(Stop::Refused(why)) => {
                let number = index.saturating_add(1);
                write!(text, "refused {number} {why}\n")?;
                return Ok(());
            }
        }
    }
    *objects = tried;
    text.push_str(items.as_str())?;
    text.push('\n')?;
    Ok(())
}

fn copy_of_all(alloc: Global, objects: &PlainObjects) -> Result<PlainObjects, AllocError> {
    let mut copy = Vec::new(alloc);
    for (name, object) in objects {
        copy.push((name.clone()?, object.copy(alloc)?))?;
    }
    Ok(copy)
}

// Does an operation, and appends its item.
fn run(
    alloc: Global,
    objects: &mut PlainObjects,
    operation: &str,
    items: &mut String,
) -> Result<(), Stop> {
    let mut words = Vec::new(alloc);
    for word in operation.split(' ') {
        words.push(word)?;
    }
    items.push(' ')?;
    if answer(alloc, objects, &words, items)? {
        return Ok(());
    }
    change(alloc, objects, &words, items)
}
