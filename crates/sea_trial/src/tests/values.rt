use sea_base::{
    BLOCK_BYTES, Block, Data, Duplicate, Name, Sequence, Sum, digest_of, put_u16, put_u32, put_u64,
    sealed_digest, sum_of, u16_at, u32_at, u64_at,
};
use std::test::Fail;

#[test]
fn fields_are_big_endian(rt: HostRuntime) -> Result<(), Fail> {
    let mut bytes = [0u8; 14];
    put_u16(&mut bytes, 0, 0x0102);
    put_u32(&mut bytes, 2, 0x0304_0506);
    put_u64(&mut bytes, 6, 0x0708_090a_0b0c_0d0e);
    assert_eq!(rt; bytes, [1, 2, 3, 4, 5, 6, 7, 8, 9, 10, 11, 12, 13, 14]);
    assert_eq!(rt; u16_at(&bytes, 0), 0x0102);
    assert_eq!(rt; u32_at(&bytes, 2), 0x0304_0506);
    assert_eq!(rt; u64_at(&bytes, 6), 0x0708_090a_0b0c_0d0e);
    Ok(())
}

#[test]
fn copies_are_equal(rt: HostRuntime) -> Result<(), Fail> {
    let alloc = rt.alloc();
    let block = Block::new(alloc, &[7; BLOCK_BYTES])?;
    assert_eq!(rt; block.copy()?.bytes(), block.bytes());
    let name = Name::new(alloc, b"name")?;
    assert_eq!(rt; name.copy()?, name);
    let mut list = Sequence::new(alloc);
    list.push(Data::new(alloc, b"first")?)?;
    list.push(Data::new(alloc, b"second")?)?;
    assert_eq!(rt; list.copy()?, list);
    Ok(())
}

#[test]
fn digests_are_sha_256(rt: HostRuntime) -> Result<(), Fail> {
    let alloc = rt.alloc();
    assert_eq!(rt; u32_at(&digest_of(b"abc").0, 0), 0xba78_16bf);
    let block = Block::new(alloc, &[0; BLOCK_BYTES])?;
    assert_eq!(rt; sum_of(&block), Sum(0xad7f_acb2_586f_c6e9));
    assert_eq!(rt; sealed_digest(&[7; 32], 0), digest_of(&[0; 32]));
    Ok(())
}
