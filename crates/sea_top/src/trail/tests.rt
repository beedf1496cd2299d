//! What no clause of the reading says: that it succeeds, and on which bytes.
ghost use Rattle.std.specs.Prelude.{◌≡◌, ◌≤◌, length, IfOk};
ghost use Rattle.sea_top.specs.Record.{IsPlain};

use super::*;
use crate::{Pieces, push_record};
use sea_base::{Commit, Data, Name, digest_of, put_u64};
use sea_device::SteadyDevice;
use std::process::Abort;
use std::test::Fail;

// What a device opens to: the trail's end, the next commit number, the last digest, and the bytes of the object `a`.
fn opened(alloc: Global, device: &mut SteadyDevice) -> Result<(u32, u64, Digest, Vec<u8>), Fail> {
    let trail = read_trail(alloc, device)?;
    let bytes = bytes_of_a(alloc, &trail.objects)?;
    Ok((trail.end, trail.commit, trail.previous, bytes))
}

// The bytes of the object `a`, none where there is no such object.
fn bytes_of_a(alloc: Global, objects: &Objects) -> Result<Vec<u8>, Fail> {
    match objects.get(&Name::new(alloc, b"a")?) {
        None => Ok(Vec::new(alloc)),
        Some(object) => Ok(object.bytes().to_vec(alloc)?),
    }
}

#[test]
fn zeros_and_no_blocks_hold_no_record(rt: HostRuntime) -> Result<(), Fail> {
    for blocks in [0, 4] {
        let mut device = SteadyDevice::new(rt.alloc(), blocks)?;
        let (end, commit, previous, bytes) = opened(rt.alloc(), &mut device)?;
        assert!(rt; end == 0 && commit == 1 && previous == Digest([0; 32]) && bytes.is_empty());
    }
    Ok(())
}

// The record of one piece, named "a".
fn record(
    alloc: Global,
    commit: u64,
    previous: Digest,
    offset: u32,
    bytes: &[u8],
) -> Result<PlainRecord, Fail>
    requires commit { 1 ≤ commit }
    requires previous { length previous.0 ≡ 32 }
    requires offset { offset ≤ 100 }
    requires bytes { length bytes.now ≤ 1000 }
    ensures { IfOk result (λ plain. IsPlain plain) }
{
    let mut pieces = Pieces::new(alloc);
    pieces.push(Piece {
        name: Name::new(alloc, b"a")?,
        offset,
        bytes: Data::new(alloc, bytes)?,
    })?;
    Ok(PlainRecord {
        commit: Commit(commit),
        previous,
        pieces,
    })
}

// The bytes of a record, and its digest.
fn spelled(alloc: Global, plain: &PlainRecord) -> Result<(Vec<u8>, Digest), Fail>
    requires { IsPlain plain.now }
    ensures { IfOk result (λ made. length made.1.0 ≡ 32) }
{
    let mut bytes = Vec::new(alloc);
    let digest = push_record(&mut bytes, plain)?;
    Ok((bytes, digest))
}

// Writes a block.
fn write(rt: &impl Abort, device: &mut SteadyDevice, place: u32, bytes: &[u8]) -> Result<(), Fail> {
    assert!(rt; bytes.len() == BLOCK_BYTES && place < device.blocks());
    Ok(device.write(Paddr(place), bytes)?)
}

// The first record, `hello` at 0.
fn hello(alloc: Global) -> Result<(Vec<u8>, Digest), Fail>
    ensures { IfOk result (λ made. length made.1.0 ≡ 32) }
{
    spelled(alloc, &record(alloc, 1, Digest([0; 32]), 0, b"hello")?)
}

// The second record, `p!!` at 3, which names this digest.
fn second(alloc: Global, previous: Digest) -> Result<(Vec<u8>, Digest), Fail>
    requires { length previous.0 ≡ 32 }
{
    spelled(alloc, &record(alloc, 2, previous, 3, b"p!!")?)
}

// A device of four blocks that begins with these two.
fn begun(
    rt: &impl Abort,
    alloc: Global,
    first: &[u8],
    second: &[u8],
) -> Result<SteadyDevice, Fail> {
    let mut device = SteadyDevice::new(alloc, 4)?;
    write(rt, &mut device, 0, first)?;
    write(rt, &mut device, 1, second)?;
    Ok(device)
}

#[test]
fn records_open_to_their_bytes(rt: HostRuntime) -> Result<(), Fail> {
    let (first, digest) = hello(rt.alloc())?;
    let (second, digest) = second(rt.alloc(), digest)?;
    let mut device = begun(&rt, rt.alloc(), &first, &second)?;
    let (end, commit, previous, bytes) = opened(rt.alloc(), &mut device)?;
    assert!(rt; end == 2 && commit == 3 && previous == digest);
    assert!(rt; bytes.as_slice() == b"help!!".as_slice());

    // The digest's front as another program computes it from the format.
    let front = [0x6f, 0xaa, 0x67, 0x06, 0x1e, 0xaa, 0x03, 0x49];
    assert!(rt; &digest.0[..8] == front.as_slice());
    Ok(())
}

#[test]
fn another_digest_ends_the_trail(rt: HostRuntime) -> Result<(), Fail> {
    let (first, _) = hello(rt.alloc())?;
    let (second, _) = second(rt.alloc(), Digest([0; 32]))?;
    let mut device = begun(&rt, rt.alloc(), &first, &second)?;
    let (end, _, _, _) = opened(rt.alloc(), &mut device)?;
    assert!(rt; end == 1);
    Ok(())
}

// The record `hello` with another commit number, and its digest with it.
fn hello_with_commit(rt: &impl Abort, alloc: Global, commit: u64) -> Result<Vec<u8>, Fail> {
    let (mut bytes, _) = hello(alloc)?;
    assert!(rt; bytes.len() == BLOCK_BYTES);
    put_u64(&mut bytes, 8, commit);
    bytes[64..96].copy_from_slice(&[0; 32]);
    let digest = digest_of(&bytes);
    bytes[64..96].copy_from_slice(&digest.0);
    Ok(bytes)
}

#[test]
fn the_first_commit_number_is_one(rt: HostRuntime) -> Result<(), Fail> {
    for (commit, want) in [(0, 0), (1, 1), (2, 0)] {
        let bytes = hello_with_commit(&rt, rt.alloc(), commit)?;
        let mut device = SteadyDevice::new(rt.alloc(), 1)?;
        write(&rt, &mut device, 0, &bytes)?;
        let (end, _, _, _) = opened(rt.alloc(), &mut device)?;
        assert!(rt; end == want, "at {commit}");
    }
    Ok(())
}
