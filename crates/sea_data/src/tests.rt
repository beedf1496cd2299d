//! Bytes read and written over a space in memory, beside a plain list.
ghost use Rattle.std.specs.Prelude.{◌≡◌, ◌+◌, ◌<◌, ◌≤◌, length, vec_len, OnOk, OnErr, IfOk};

use crate::{cut, read, write, zero};
use sea_base::{Laddr, MapSpace, NoMemory, Nths, SpaceFault};
use sea_object::Onode;
use std::alloc::Global;
use std::process::Abort;
use std::test::Fail;

// An object of so many bytes, whose addresses begin at 2.
fn onode(size: u32) -> Onode {
    Onode {
        base: Laddr(2),
        size,
        attrs: 0,
        keys: 0,
    }
}

// A space in which the listed gets fail.
fn space(alloc: Global, listed: &[u64]) -> Result<MapSpace, NoMemory> {
    let mut fails = Nths::new(alloc);
    for nth in listed {
        fails.push(*nth)?;
    }
    Ok(MapSpace::new(alloc, fails))
}

#[test]
fn a_byte_at_the_very_end(rt: HostRuntime) -> Result<(), Fail> {
    let alloc = rt.alloc();
    let mut space = space(alloc, &[])?;
    write(alloc, &mut space, &onode(0), 16_777_215, b"A")?;
    let found = read(alloc, &mut space, &onode(16_777_216), 16_777_214, 2)?;
    assert_eq!(rt; found.bytes(), b"\0A".as_slice());
    Ok(())
}

#[test]
fn bytes_past_a_cut_end_come_back_as_zeros(rt: HostRuntime) -> Result<(), Fail> {
    let alloc = rt.alloc();
    let mut space = space(alloc, &[])?;
    write(alloc, &mut space, &onode(0), 0, b"ABCDE")?;
    cut(alloc, &mut space, &onode(5), 2)?;
    cut(alloc, &mut space, &onode(2), 4)?;
    let found = read(alloc, &mut space, &onode(4), 0, 9)?;
    assert_eq!(rt; found.bytes(), b"AB\0\0".as_slice());
    Ok(())
}

#[test]
fn zeros_within_and_past_the_end(rt: HostRuntime) -> Result<(), Fail> {
    let alloc = rt.alloc();
    let mut space = space(alloc, &[])?;
    write(alloc, &mut space, &onode(0), 0, b"ABC")?;
    zero(alloc, &mut space, &onode(3), 1, 3)?;
    let found = read(alloc, &mut space, &onode(4), 0, 9)?;
    assert_eq!(rt; found.bytes(), b"A\0\0\0".as_slice());
    Ok(())
}

// Whether a write reads nothing: it is Ok although the first get fails.
fn writes_blindly(alloc: Global, offset: u32, bytes: &[u8]) -> Result<bool, NoMemory>
    requires { (1 ≤ length bytes.now) × (offset + length bytes.now ≤ 30000) }
{
    let mut space = space(alloc, &[1])?;
    let done = write(alloc, &mut space, &onode(0), offset, bytes);
    Ok(done == Ok(()))
}

#[test]
fn a_block_written_whole_is_not_read(rt: HostRuntime) -> Result<(), Fail> {
    let alloc = rt.alloc();
    let bytes = row(alloc, 7, 4096)?;
    assert!(rt; writes_blindly(alloc, 0, &bytes)?);
    assert!(rt; writes_blindly(alloc, 4096, &bytes)?);
    assert!(rt; !writes_blindly(alloc, 4095, &bytes)?);
    assert!(rt; !writes_blindly(alloc, 1, &bytes)?);
    Ok(())
}

// The first get fails: what is answered without one is Ok.
#[test]
fn a_cut_reads_only_an_old_end_that_grows(rt: HostRuntime) -> Result<(), Fail> {
    let alloc = rt.alloc();
    let mut space = space(alloc, &[1])?;
    assert_eq!(rt; cut(alloc, &mut space, &onode(9000), 0), Ok(()));
    assert_eq!(rt; cut(alloc, &mut space, &onode(8192), 9000), Ok(()));
    let fault = Err(SpaceFault::DeviceFault);
    assert_eq!(rt; cut(alloc, &mut space, &onode(8191), 9000), fault);
    Ok(())
}

// Numbers that look random, and are the same again from the same seed.
#[derive(Drop)]
struct Dice(u64);

impl Dice {
    fn below(&mut self, limit: u32) -> u32
        requires { 0 < limit }
        ensures { result < limit }
    {
        let next = self.0.wrapping_mul(6_364_136_223_846_793_005);
        self.0 = next.wrapping_add(1_442_695_040_888_963_407);
        ((self.0 >> 33) % u64::from(limit)) as u32
    }
}

// An object over a space, and its bytes in a plain list.
#[derive(Drop)]
struct Twin {
    space: MapSpace,
    plain: Vec<u8>,
    ghost few: { vec_len plain ≤ 30000 },
}

impl Twin {
    fn onode(&self) -> Onode {
        onode(self.plain.len() as u32)
    }

    fn write(&mut self, alloc: Global, offset: u32, bytes: &[u8]) -> Result<(), SpaceFault>
        requires { (1 ≤ length bytes.now) × (offset + length bytes.now ≤ 30000) }
    {
        let onode = self.onode();
        write(alloc, &mut self.space, &onode, offset, bytes)?;
        Ok(lay(&mut self.plain, offset as usize, bytes)?)
    }

    fn zero(&mut self, alloc: Global, offset: u32, zeros: &[u8]) -> Result<(), SpaceFault>
        requires { (1 ≤ length zeros.now) × (offset + length zeros.now ≤ 30000) }
    {
        let onode = self.onode();
        zero(alloc, &mut self.space, &onode, offset, zeros.len() as u32)?;
        Ok(lay(&mut self.plain, offset as usize, zeros)?)
    }

    fn cut(&mut self, alloc: Global, size: u32) -> Result<(), SpaceFault>
        requires { size ≤ 30000 }
    {
        let onode = self.onode();
        cut(alloc, &mut self.space, &onode, size)?;
        Ok(resize(&mut self.plain, size as usize)?)
    }

    // Reads a range, and compares it.
    fn check(
        &mut self,
        rt: &impl Abort,
        alloc: Global,
        from: u32,
        count: u32,
    ) -> Result<(), SpaceFault>
        requires { (from ≤ 30000) × (1 ≤ count) × (count ≤ 60000) }
    {
        let onode = self.onode();
        let found = read(alloc, &mut self.space, &onode, from, count)?;
        let start = self.plain.len().min(from as usize);
        let end = self.plain.len().min((from + count) as usize);
        assert_eq!(rt; found.bytes(), &self.plain[start..end]);
        Ok(())
    }
}

fn resize(plain: &mut Vec<u8>, size: usize) -> Result<(), NoMemory>
    ensures ok { OnOk result (vec_len plain.new ≡ size) }
    ensures err { OnErr result (vec_len plain.new ≡ vec_len plain.old) }
{
    plain.resize(size, 0)?;
    Ok(())
}

fn lay(plain: &mut Vec<u8>, offset: usize, bytes: &[u8]) -> Result<(), NoMemory>
    requires few { vec_len plain.old ≤ 30000 }
    requires within { (1 ≤ length bytes.now) × (offset + length bytes.now ≤ 30000) }
    ensures { vec_len plain.new ≤ 30000 }
{
    let end = offset + bytes.len();
    let size = plain.len().max(end);
    resize(plain, size)?;
    plain[offset..end].copy_from_slice(bytes);
    Ok(())
}

// Makes one call, and compares the bytes around it.
fn step(
    rt: &impl Abort,
    alloc: Global,
    twin: &mut Twin,
    dice: &mut Dice,
) -> Result<(), SpaceFault> {
    let offset = dice.below(20_000);
    let count = 1 + dice.below(9000);
    let byte = dice.below(256) as u8;
    match dice.below(4) {
        0 => twin.cut(alloc, offset)?,
        1 => twin.zero(alloc, offset, &row(alloc, 0, count as usize)?)?,
        _ => twin.write(alloc, offset, &row(alloc, byte, count as usize)?)?,
    }
    twin.check(rt, alloc, dice.below(20_000), 60_000)
}

fn row(alloc: Global, byte: u8, count: usize) -> Result<Vec<u8>, NoMemory>
    ensures { IfOk result (λ row. length row.items ≡ count) }
{
    Ok(vec![in alloc; byte; count]?)
}

#[test]
fn calls_of_all_kinds(rt: HostRuntime) -> Result<(), Fail> {
    let alloc = rt.alloc();
    let space = space(alloc, &[])?;
    let plain = Vec::new(alloc);
    let mut twin = Twin { space, plain };
    let mut dice = Dice(1);
    for _ in 0..400 {
        step(&rt, alloc, &mut twin, &mut dice)?;
    }
    Ok(())
}
