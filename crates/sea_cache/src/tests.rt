ghost use Rattle.std.specs.Prelude.{◌<◌};

use super::Cache;
use sea_base::{Block, Commit, Laddr, NoMemory, Paddr};
use std::alloc::Global;
use std::process::Abort;
use std::test::Fail;

fn filled(alloc: Global, byte: u8) -> Result<Block, NoMemory> {
    Block::new(alloc, &[byte; 4096])
}

// A cache as a plain list: what is clean by place, the last used first, each block by its first
// byte.
#[derive(Drop)]
struct Plain {
    clean: Vec<(u32, u8)>,
    limit: usize,
}

impl Plain {
    fn take(&mut self, at: u32) -> Option<u8> {
        let index = self.clean.iter().position(|entry| entry.0 == at)?;
        let (_, byte) = self.clean.remove(index);
        Some(byte)
    }

    fn keep(&mut self, at: u32, byte: u8) -> Result<(), Fail> {
        let _ = self.take(at);
        self.clean.insert(0, (at, byte))?;
        self.clean.truncate(self.limit);
        Ok(())
    }

    fn used(&mut self, at: u32) -> Result<Option<u8>, Fail> {
        let found = self.take(at);
        if let Some(byte) = found {
            self.clean.insert(0, (at, byte))?;
        }
        Ok(found)
    }
}

// The next number of a linear congruential generator, and its state after.
fn drawn(state: &mut u64, below: u64) -> u64
    requires { 0 < below }
    ensures { result < below }
{
    *state = state
        .wrapping_mul(6364136223846793005)
        .wrapping_add(1442695040888963407);
    (*state >> 33) % below
}

fn first_byte(found: Option<&Block>) -> Option<u8> {
    found?.bytes().first().copied()
}

#[test]
fn clean_blocks_are_those_of_a_plain_list(rt: HostRuntime) -> Result<(), Fail> {
    let alloc = rt.alloc();
    for limit in [1, 2, 7, 40] {
        let mut state = 7;
        let mut cache = Cache::new(alloc, limit)?;
        let mut plain = Plain {
            clean: Vec::new(alloc),
            limit: limit as usize,
        };
        for _ in 0..2000 {
            let at = drawn(&mut state, 30) as u32;
            match drawn(&mut state, 8) {
                0 | 1 | 2 => {
                    let byte = drawn(&mut state, 256) as u8;
                    cache.keep(Paddr(at), filled(alloc, byte)?)?;
                    plain.keep(at, byte)?;
                }
                3 => {
                    cache.forget(Paddr(at));
                    let _ = plain.take(at);
                }
                _ => assert_eq!(rt; first_byte(cache.clean(Paddr(at))), plain.used(at)?),
            }
            assert_eq!(rt; cache.count(), plain.clean.len());
        }
    }
    Ok(())
}

#[test]
fn pinned_blocks_stay_until_they_are_unpinned(rt: HostRuntime) -> Result<(), Fail> {
    let alloc = rt.alloc();
    let mut cache = Cache::new(alloc, 1)?;
    for at in 0..5000u64 {
        cache.pin(Laddr(at), filled(alloc, (at % 251) as u8)?, Commit(at + 1))?;
    }
    cache.pin(Laddr(7), filled(alloc, 9)?, Commit(6000))?;
    cache.unpin(Laddr(8));
    cache.unpin(Laddr(9000));
    for at in 0..5000u64 {
        let found = match cache.pinned(Laddr(at)) {
            Some((block, version)) => Some((first_byte(Some(block)), version)),
            None => None,
        };
        let expected = match at {
            7 => Some((Some(9), Commit(6000))),
            8 => None,
            _ => Some((Some((at % 251) as u8), Commit(at + 1))),
        };
        assert_eq!(rt; found, expected);
    }
    Ok(())
}

// What is pinned as a plain list, in no order: addresses with the first bytes of their blocks, and
// versions.
#[derive(Drop)]
struct Pins {
    list: Vec<(u64, u8, u64)>,
}

impl Pins {
    fn put(&mut self, at: u64, byte: u8, version: u64) -> Result<(), Fail> {
        self.drop_at(at);
        self.list.push((at, byte, version))?;
        Ok(())
    }

    fn drop_at(&mut self, at: u64) {
        self.list.retain(|entry| entry.0 != at);
    }

    fn find(&self, at: u64) -> Option<(u8, u64)> {
        let entry = self.list.iter().find(|entry| entry.0 == at)?;
        Some((entry.1, entry.2))
    }
}

fn byte_and_version(found: Option<(&Block, Commit)>) -> Option<(u8, u64)> {
    let (block, version) = found?;
    Some((first_byte(Some(block))?, version.0))
}

#[test]
fn pinned_blocks_are_those_of_a_plain_list(rt: HostRuntime) -> Result<(), Fail> {
    let alloc = rt.alloc();
    let mut state = 11;
    let mut cache = Cache::new(alloc, 1)?;
    let mut pins = Pins {
        list: Vec::new(alloc),
    };
    for version in 1..4000u64 {
        let at = drawn(&mut state, 50);
        let byte = drawn(&mut state, 256) as u8;
        match drawn(&mut state, 6) {
            0 | 1 => {
                cache.pin(Laddr(at), filled(alloc, byte)?, Commit(version))?;
                pins.put(at, byte, version)?;
            }
            2 => {
                cache.unpin(Laddr(at));
                pins.drop_at(at);
            }
            // clean blocks have nothing to do with it
            3 => cache.keep(Paddr(at as u32), filled(alloc, byte)?)?,
            _ => assert_eq!(rt; byte_and_version(cache.pinned(Laddr(at))), pins.find(at)),
        }
    }
    Ok(())
}

#[test]
fn a_full_cache_lets_go_of_the_block_not_used_for_longest(rt: HostRuntime) -> Result<(), Fail> {
    let alloc = rt.alloc();
    let mut cache = Cache::new(alloc, 1024)?;
    for at in 0..4000 {
        cache.keep(Paddr(at), filled(alloc, (at % 256) as u8)?)?;
        assert_eq!(rt; first_byte(cache.clean(Paddr(0))), Some(0));
    }
    assert_eq!(rt; cache.count(), 1024);
    assert_eq!(rt; first_byte(cache.clean(Paddr(2976))), None);
    assert_eq!(rt; first_byte(cache.clean(Paddr(2977))), Some(161));
    Ok(())
}
