use super::*;
use sea_base::NoMemory;
use std::alloc::Global;
use std::test::Fail;

// What `sha256sum` says of the first record's block with zeros in place of the digest, and of the second's two.
const FIRST_DIGEST: [u8; 32] = [
    0xcb, 0xd3, 0xaf, 0xc0, 0x2c, 0xf5, 0xb7, 0x64, 0x02, 0x27, 0xff, 0x84, 0x91, 0x68, 0xbf, 0x14,
    0x47, 0x85, 0x32, 0x8d, 0x49, 0xb7, 0xc9, 0x50, 0x22, 0xc6, 0x2e, 0x6c, 0xa2, 0x40, 0x5b, 0x2d,
];

const SECOND_DIGEST: [u8; 32] = [
    0x2f, 0x90, 0x35, 0xca, 0x06, 0xd4, 0xbd, 0xea, 0x7a, 0x4f, 0x41, 0x4d, 0xfc, 0x6f, 0x16, 0x6c,
    0xae, 0x03, 0xb3, 0x1c, 0xf5, 0xab, 0x2e, 0xfc, 0x8a, 0x3b, 0xc8, 0x0c, 0x9f, 0xd2, 0x1a, 0x5a,
];

// Commit 1, in 1 block with 15 bytes of pieces: object `a` gets `hello` at 0.
fn first_bytes(alloc: Global) -> Result<Vec<u8>, NoMemory> {
    let mut bytes = Vec::new(alloc);
    bytes.extend_from_slice(b"SEAPLAIN")?;
    bytes.extend_from_slice(&[0, 0, 0, 0, 0, 0, 0, 1])?;
    bytes.extend_from_slice(&[0, 0, 0, 1, 0, 0, 0, 15])?;
    bytes.resize(64, 0)?;
    bytes.extend_from_slice(&FIRST_DIGEST)?;
    bytes.extend_from_slice(&[1, b'a', 0, 0, 0, 0, 0, 0, 0, 5])?;
    bytes.extend_from_slice(b"hello")?;
    bytes.resize(4096, 0)?;
    Ok(bytes)
}

// Commit 2, in 2 blocks with 5,020 bytes of pieces: `a` gets 5,000 bytes at 5, and `b` none at its end.
fn second_bytes(alloc: Global) -> Result<Vec<u8>, NoMemory> {
    let mut bytes = Vec::new(alloc);
    bytes.extend_from_slice(b"SEAPLAIN")?;
    bytes.extend_from_slice(&[0, 0, 0, 0, 0, 0, 0, 2])?;
    bytes.extend_from_slice(&[0, 0, 0, 2, 0, 0, 0x13, 0x9c])?;
    bytes.resize(32, 0)?;
    bytes.extend_from_slice(&FIRST_DIGEST)?;
    bytes.extend_from_slice(&SECOND_DIGEST)?;
    bytes.extend_from_slice(&[1, b'a', 0, 0, 0, 5, 0, 0, 0x13, 0x88])?;
    bytes.resize(106 + 5000, 7)?;
    bytes.extend_from_slice(&[1, b'b', 1, 0, 0, 0, 0, 0, 0, 0])?;
    bytes.resize(8192, 0)?;
    Ok(bytes)
}

// The first record's bytes with one bit of the byte at a place changed.
fn changed_bytes(alloc: Global, at: usize) -> Result<Vec<u8>, NoMemory> {
    let mut bytes = first_bytes(alloc)?;
    if let Some(byte) = bytes.get_mut(at) {
        *byte ^= 1;
    }
    Ok(bytes)
}

fn spells_none(alloc: Global, bytes: &[u8]) -> Result<bool, NoMemory> {
    Ok(read_record(alloc, bytes)?.is_none())
}

#[test]
fn a_record_read(rt: HostRuntime) -> Result<(), Fail> {
    let bytes = first_bytes(rt.alloc())?;
    let plain = read_record(rt.alloc(), &bytes)?.ok_or("the bytes spell a record")?;
    assert_eq!(rt; plain.commit, Commit(1));
    assert_eq!(rt; plain.previous, Digest([0; 32]));
    for piece in plain.pieces.items() {
        assert_eq!(rt; piece.name.bytes(), b"a".as_slice());
        assert_eq!(rt; piece.bytes.bytes(), b"hello".as_slice());
    }
    Ok(())
}

#[test]
fn records_written(rt: HostRuntime) -> Result<(), Fail> {
    let first = first_bytes(rt.alloc())?;
    let plain = read_record(rt.alloc(), &first)?.ok_or("the bytes spell a record")?;
    let mut out = Vec::new(rt.alloc());
    assert_eq!(rt; push_record(&mut out, &plain)?, Digest(FIRST_DIGEST));
    let second = second_bytes(rt.alloc())?;
    let plain = read_record(rt.alloc(), &second)?.ok_or("the bytes spell a record")?;
    assert_eq!(rt; push_record(&mut out, &plain)?, Digest(SECOND_DIGEST));
    let mut both = first;
    both.extend_from_slice(&second)?;
    assert_eq!(rt; out.as_slice(), both.as_slice());
    Ok(())
}

#[test]
fn bytes_behind_a_record(rt: HostRuntime) -> Result<(), Fail> {
    let mut bytes = second_bytes(rt.alloc())?;
    bytes.push(1)?;
    assert!(rt; !spells_none(rt.alloc(), &bytes)?);
    bytes.truncate(8191);
    assert!(rt; spells_none(rt.alloc(), &bytes)?, "a record cut off");
    Ok(())
}

#[test]
fn a_byte_changed_anywhere(rt: HostRuntime) -> Result<(), Fail> {
    for at in 0..4096 {
        let bytes = changed_bytes(rt.alloc(), at)?;
        assert!(rt; spells_none(rt.alloc(), &bytes)?, "at {at}");
    }
    Ok(())
}

#[test]
fn no_pieces(rt: HostRuntime) {
    assert_eq!(rt; record_blocks(&[]), 1);
}
