use super::*;
use crate::plain::Plain;
use sea_base::{Data, Name};
use std::alloc::Global;
use std::process::Abort;
use std::test::Fail;

#[derive(Clone, Copy)]
enum Step<'a> {
    Write(&'a [u8], u32, &'a [u8]),
    Read(&'a [u8], u32, u32),
}

fn op(alloc: Global, step: Step) -> Result<Op, Fail> {
    match step {
        Step::Write(name, offset, bytes) => Ok(Op::Write {
            name: Name::new(alloc, name)?,
            offset,
            bytes: Data::new(alloc, bytes)?,
        }),
        Step::Read(name, offset, length) => Ok(Op::Read {
            name: Name::new(alloc, name)?,
            offset,
            length,
        }),
    }
}

fn request(alloc: Global, steps: &[Step]) -> Result<Request, Fail> {
    let mut ops = Ops::new(alloc);
    for step in steps {
        ops.push(op(alloc, *step)?)?;
    }
    Ok(Request::new(ops)?)
}

fn items(reply: Reply) -> Result<Items, Fail> {
    match reply {
        Reply::Done(items) => Ok(items),
        Reply::Full { .. } => Err(Fail::from("full")),
    }
}

// What is wrong with a request that has one step several times.
fn fault(alloc: Global, count: u32, step: Step) -> Result<Option<RequestFault>, Fail> {
    let mut ops = Ops::new(alloc);
    for _ in 0..count {
        ops.push(op(alloc, step)?)?;
    }
    Ok(Request::new(ops).err())
}

#[test]
fn limits_of_a_request(rt: HostRuntime) -> Result<(), Fail> {
    use Step::{Read, Write};
    let alloc = rt.alloc();
    let mut zeros = Vec::new(alloc);
    zeros.resize(4 * 4096, 0)?;
    let four_blocks = zeros.as_slice();
    let bad = Some(RequestFault::BadRange { op: 1 });
    let cases = [
        (0, Read(b"a", 0, 1), Some(RequestFault::Empty)),
        (16, Read(b"a", 0, 1), None),
        (17, Read(b"a", 0, 1), Some(RequestFault::TooManyOps)),
        (1, Write(b"a", 16_777_211, b"hello"), None),
        (1, Write(b"a", 16_777_212, b"hello"), bad),
        (1, Read(b"a", 0, 65_537), bad),
        (16, Write(b"a", 0, four_blocks), None),
        (
            13,
            Write(b"a", 1, four_blocks),
            Some(RequestFault::TooManyBlocks),
        ),
    ];
    for (count, step, wanted) in cases {
        assert_eq!(rt; fault(alloc, count, step)?, wanted);
    }
    Ok(())
}

#[test]
fn hello_is_written_and_read(rt: HostRuntime) -> Result<(), Fail> {
    use Step::{Read, Write};
    let alloc = rt.alloc();
    let steps = [
        Write(b"a", 0, b"hello"),
        Write(b"a", 7, b"!"),
        Read(b"a", 3, 9),
        Read(b"b", 0, 1),
    ];
    let mut objects = Objects::new(alloc);
    let items = items(objects.apply(&request(alloc, &steps)?)?)?;
    let [Item::Unit, Item::Unit, Item::Bytes(part), Item::Absent] = items.items() else {
        return Err(Fail::from("other items"));
    };
    assert_eq!(rt; part.bytes(), b"lo\0\0!".as_slice());
    Ok(())
}

fn compare(
    rt: &impl Abort,
    objects: &mut Objects,
    plain: &mut Plain,
    request: &Request,
) -> Result<(), Fail> {
    let fast = items(objects.apply(request)?)?;
    let slow = items(plain.apply(request)?)?;
    assert_eq!(rt; fast.items(), slow.items());
    Ok(())
}

#[test]
fn objects_answer_as_the_plain_program(rt: HostRuntime) -> Result<(), Fail> {
    use Step::{Read, Write};
    let alloc = rt.alloc();
    let steps = [
        Read(b"a", 0, 5),
        Write(b"a", 0, b"first"),
        Write(b"b", 3, b"second"),
        Write(b"a", 4, b"T, third"),
        Read(b"a", 2, 100),
        Write(b"a", 70_000, b"end"),
        Read(b"a", 4_465, 65_536),
        Read(b"b", 3, 4),
    ];
    let mut objects = Objects::new(alloc);
    let mut plain = Plain::new(alloc);
    for step in steps {
        compare(&rt, &mut objects, &mut plain, &request(alloc, &[step])?)?;
    }
    let all = request(alloc, &steps)?;
    compare(&rt, &mut Objects::new(alloc), &mut Plain::new(alloc), &all)
}
