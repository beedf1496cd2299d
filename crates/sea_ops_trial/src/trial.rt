//! The trial itself.

use crate::fault::TrialFault;
use crate::store::ObjectStore;
use sea_base::{Data, Duplicate, Key, MapSpace, Name, Nths, Pairs};
use sea_object::{Item, Op};
use std::alloc::Global;
use std::fmt;

/// How many objects there are.
const OBJECTS: u32 = 16;

/// The keys of an object at most.
const OBJECT_KEYS: u32 = 10_000;

/// The bytes of a key's value.
const VALUE_BYTES: usize = 100;

/// The bytes of an object that is written over.
const FILLED_BYTES: u32 = 65_536;

/// The bytes of a small write.
const WRITTEN_BYTES: u32 = 64;

/// How many operations a trial does.
#[derive(Clone, Copy, Debug, PartialEq, Eq)]
pub struct Calls {
    /// The keys put into omaps.
    pub sets: u32,
    /// The keys looked for.
    pub gets: u32,
    /// The writes of 64 bytes over bytes that stand.
    pub writes: u32,
}

/// What a trial counted.
#[derive(Clone, Copy, Debug, PartialEq, Eq)]
pub struct Report {
    calls: Calls,
    found: u32,
}

impl fmt::Display for Report {
    fn fmt<W: fmt::Write>(&self, f: &mut fmt::Formatter<W>) -> fmt::Result {
        let Calls { sets, gets, writes } = self.calls;
        let found = self.found;
        write!(f, "sets {sets} gets {gets} found {found} writes {writes}")
    }
}

/// Makes objects, and does so many operations of each kind on them.
pub fn run_trial(alloc: Global, calls: Calls) -> Result<Report, TrialFault> {
    let mut store = ObjectStore::new(alloc, MapSpace::new(alloc, Nths::new(alloc)));
    make_objects(alloc, &mut store)?;
    set_keys(alloc, &mut store, calls.sets)?;
    let found = count_found(alloc, &mut store, calls)?;
    if calls.writes > 0 {
        fill_objects(alloc, &mut store)?;
        write_over(alloc, &mut store, calls.writes)?;
    }
    Ok(Report { calls, found })
}

// Makes the objects.
fn make_objects(alloc: Global, store: &mut ObjectStore<MapSpace>) -> Result<(), TrialFault> {
    for number in 0..OBJECTS {
        let name = name_of(alloc, number)?;
        store.exec(&Op::Touch { name })?;
    }
    Ok(())
}

// Puts one key after the other into the objects' omaps.
fn set_keys(
    alloc: Global,
    store: &mut ObjectStore<MapSpace>,
    count: u32,
) -> Result<(), TrialFault> {
    let value = Data::from_vec(vec![in alloc; b'v'; VALUE_BYTES]?)?;
    for number in 0..count {
        let mut pairs = Pairs::new(alloc);
        pairs.push((key_of(alloc, number)?, value.copy()?))?;
        let set = Op::OmapSetKeys {
            name: name_of(alloc, number % OBJECTS)?,
            pairs,
        };
        store.exec(&set)?;
    }
    Ok(())
}

// How many gets of keys, in an order of their own, find a value.
fn count_found(
    alloc: Global,
    store: &mut ObjectStore<MapSpace>,
    calls: Calls,
) -> Result<u32, TrialFault> {
    let mut found = 0u32;
    for number in 0..calls.gets {
        let number = scattered(number).checked_rem(calls.sets).unwrap_or(0);
        let get = Op::OmapGet {
            name: name_of(alloc, number % OBJECTS)?,
            key: key_of(alloc, number)?,
        };
        if store.exec(&get)? != Item::Absent {
            found = found.saturating_add(1);
        }
    }
    Ok(found)
}

// Writes bytes into each object.
fn fill_objects(alloc: Global, store: &mut ObjectStore<MapSpace>) -> Result<(), TrialFault> {
    let bytes = Data::from_vec(vec![in alloc; b'f'; FILLED_BYTES as usize]?)?;
    for number in 0..OBJECTS {
        let fill = Op::Write {
            name: name_of(alloc, number)?,
            offset: 0,
            bytes: bytes.copy()?,
        };
        store.exec(&fill)?;
    }
    Ok(())
}

// Writes a few bytes over those of the objects, again and again, at places far apart.
fn write_over(
    alloc: Global,
    store: &mut ObjectStore<MapSpace>,
    count: u32,
) -> Result<(), TrialFault> {
    let bytes = Data::from_vec(vec![in alloc; b'w'; WRITTEN_BYTES as usize]?)?;
    for number in 0..count {
        let over = Op::Write {
            name: name_of(alloc, number % OBJECTS)?,
            offset: scattered(number) % (FILLED_BYTES - WRITTEN_BYTES),
            bytes: bytes.copy()?,
        };
        store.exec(&over)?;
    }
    Ok(())
}

// Numbers that follow one another are far apart.
fn scattered(number: u32) -> u32 {
    number.wrapping_mul(2_654_435_761)
}

fn name_of(alloc: Global, number: u32) -> Result<Name, TrialFault> {
    let text = format!(in alloc; "object{number:02}")?;
    Ok(Name::new(alloc, text.as_bytes())?)
}

// The key of the set with this number: another one for each set of an object that follow one another,
// until there are as many as an object may have.
fn key_of(alloc: Global, number: u32) -> Result<Key, TrialFault> {
    let place = scattered(number / OBJECTS % OBJECT_KEYS);
    let text = format!(in alloc; "key{place:010}")?;
    Ok(Key::new(alloc, text.as_bytes())?)
}
