//! One object of a plain server.

use crate::tests::plain::Stop;
use crate::tests::plain::lists::{List, copy_of, least, put, take};
use crate::tests::plain::spelling::{bytes_of, name_of};
use std::alloc::{AllocError, Global};

/// Bytes, and two lists of pairs.
#[derive(Drop)]
pub struct PlainObject {
    pub bytes: Vec<u8>,
    pub attributes: List<Vec<u8>>,
    pub omap: List<Vec<u8>>,
}

impl PlainObject {
    pub fn new(alloc: Global) -> PlainObject {
        PlainObject {
            bytes: Vec::new(alloc),
            attributes: Vec::new(alloc),
            omap: Vec::new(alloc),
        }
    }

    pub fn copy(&self, alloc: Global) -> Result<PlainObject, AllocError> {
        Ok(PlainObject {
            bytes: self.bytes.clone()?,
            attributes: copy_of(alloc, &self.attributes)?,
            omap: copy_of(alloc, &self.omap)?,
        })
    }

    /// Writes bytes one by one, with zeros before them where there are fewer.
    pub fn write(&mut self, offset: usize, bytes: &[u8]) -> Result<(), AllocError> {
        if self.bytes.len() < offset {
            self.bytes.resize(offset, 0)?;
        }
        for (index, byte) in bytes.iter().enumerate() {
            match self.bytes.get_mut(offset.saturating_add(index)) {
                Some(place) => *place = *byte,
                None => self.bytes.push(*byte)?,
            }
        }
        Ok(())
    }

    pub fn set_attribute(&mut self, key: Vec<u8>, value: Vec<u8>) -> Result<(), Stop> {
        put(&mut self.attributes, key, value)?;
        if self.attributes.len() > 64 {
            return Err(Stop::Refused("AttrFull"));
        }
        Ok(())
    }

    /// Puts pairs, which stand as words: keys, each with its value behind it.
    pub fn set_keys(&mut self, alloc: Global, words: &[&str]) -> Result<(), Stop> {
        for pair in words.chunks_exact(2) {
            if let [key, value] = pair {
                put(
                    &mut self.omap,
                    name_of(alloc, *key)?,
                    bytes_of(alloc, *value)?,
                )?;
            }
        }
        if self.omap.len() > 10_000 {
            return Err(Stop::Refused("OmapFull"));
        }
        Ok(())
    }

    /// Takes keys away, the least first, as long as there are any and fewer than the bound went.
    pub fn remove_range(
        &mut self,
        alloc: Global,
        from: &[u8],
        to: &[u8],
        bound: usize,
    ) -> Result<usize, AllocError> {
        for gone in 0..bound {
            let Some((key, _)) = least(&self.omap, from, Some(to)) else {
                return Ok(gone);
            };
            let key = key.as_slice().to_vec(alloc)?;
            take(&mut self.omap, &key);
        }
        Ok(bound)
    }
}
