//! The keys and the values of a trial.

use crate::fault::TrialFault;
use sea_base::{Data, Key, NoMemory};
use std::alloc::Global;

/// How many keys there are.
const KEYS: u64 = 100_000_000;

/// A number without a factor in common with `KEYS`, so that keys come again only after all of them.
const STRIDE: u64 = 61_803_399;

/// The key of the put with this number. Keys that follow one another lie far apart.
pub fn key_of(alloc: Global, number: u32) -> Result<Key, TrialFault> {
    let place = u64::from(number) * STRIDE % KEYS;
    let text = format!(in alloc; "k{place:08}")?;
    Ok(Key::new(alloc, text.as_bytes())?)
}

/// The value of each put.
pub fn sample_value(alloc: Global) -> Result<Data, NoMemory> {
    Data::new(alloc, &[b'v'; 100])
}
