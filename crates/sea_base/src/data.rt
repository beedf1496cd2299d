//! Byte strings that share their bytes.
ghost use Rattle.std.specs.Prelude.{◌≡◌, ◌^◌, ◌<◌, length, IfOk};

use crate::{Duplicate, NoMemory};
use bytes::Bytes;
use std::alloc::Global;
use std::marker::Model;

/// A byte string, which contracts see as the list of its bytes. A copy shares the bytes.
#[derive(Debug, PartialEq, Eq, PartialOrd, Ord, Drop)]
pub struct Data {
    bytes: Bytes,
}

impl Model for Data {
    ghost use Rattle.std.specs.Prelude.{List, ℕ};

    ghost Value = { List ℕ };

    ghost view = { λ d. d.bytes };

    ghost inverse = { λ bytes. record { bytes = bytes } };
}

impl Data {
    /// A byte string of these bytes.
    pub fn new(alloc: Global, bytes: &[u8]) -> Result<Data, NoMemory>
        ensures { IfOk result (λ made. made ≡ bytes.now) }
    {
        let bytes = Bytes::copy_from_slice(alloc, bytes)?;
        Ok(Data { bytes })
    }

    /// The bytes of a vector, of which none is copied.
    pub fn from_vec(bytes: Vec<u8>) -> Result<Data, NoMemory>
        ensures { IfOk result (λ made. made ≡ bytes.items) }
    {
        let bytes = Bytes::from_vec(bytes)?;
        Ok(Data { bytes })
    }

    /// The byte string of bytes that are shared already.
    pub(crate) fn sharing(bytes: Bytes) -> Data
        ensures { result ≡ bytes }
    {
        Data { bytes }
    }

    /// The bytes, in order.
    pub fn bytes(&self) -> &[u8]
        ensures { result.now ≡ self.now }
    {
        self.bytes.as_slice()
    }

    /// How many bytes there are.
    pub fn len(&self) -> usize
        ensures value { result ≡ length self.now }
        ensures bound { result < 2 ^ 63 }
    {
        self.bytes.len()
    }
}

impl Duplicate for Data {
    fn copy(&self) -> Result<Data, NoMemory> {
        let bytes = self.bytes.clone()?;
        Ok(Data { bytes })
    }
}
