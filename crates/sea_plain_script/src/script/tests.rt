use super::*;
use sea_plain::Op;
use std::test::Fail;

#[test]
fn a_line_gives_its_request(rt: HostRuntime) -> Result<(), Fail> {
    let plan = read_script(rt.alloc(), b"1 write a 0 x68656c6c6f ; read %00 7 5\n")?;
    assert_eq!(rt; plan.items().len(), 1);
    let asked = &plan.items()[0];
    assert_eq!(rt; asked.client, 1);
    match asked.request.ops() {
        [
            Op::Write {
                name,
                offset,
                bytes,
            },
            Op::Read {
                name: other,
                offset: from,
                length,
            },
        ] => {
            assert_eq!(rt; name.bytes(), b"a".as_slice());
            assert_eq!(rt; *offset, 0);
            assert_eq!(rt; bytes.bytes(), b"hello".as_slice());
            assert_eq!(rt; other.bytes(), [0].as_slice());
            assert_eq!(rt; *from, 7);
            assert_eq!(rt; *length, 5);
        }
        _ => assert!(rt; false, "not a write and a read"),
    }
    Ok(())
}

#[test]
fn other_forms_are_refused(rt: HostRuntime) -> Result<(), Fail> {
    let table: [(&str, Option<u32>); 23] = [
        ("1 write a 0 x00", None),
        ("# a comment\n\n1 read a 0 5", None),
        ("1 write a%20b 0 x00\n1 read a%20b 0 1\n", None),
        ("1 write a 16777215 x00", None),
        ("", None),
        ("1 write a 16777216 x00", Some(1)),
        (
            "1 read aaaaaaaaaaaaaaaaaaaaaaaaaaaaaaaaaaaaaaaaaaaaaaaaaaaaaaaaaaaaaaaaa 0 5",
            Some(1),
        ),
        ("1 write a 0 x0", Some(1)),
        ("1 write a 0 xAB", Some(1)),
        ("1 read a 00 5", Some(1)),
        ("1 read a 0 05", Some(1)),
        ("1 read a 1234567890 5", Some(1)),
        ("1 read  a 0 5", Some(1)),
        ("1 read a 0", Some(1)),
        ("1 read a 0 5 6", Some(1)),
        ("1 read a 0 5 ;", Some(1)),
        ("1 touch a", Some(1)),
        ("2 read a 0 5", Some(1)),
        ("1 read a 0 5 ", Some(1)),
        ("1 read %41 0 5", Some(1)),
        ("1 read a%2 0 5", Some(1)),
        ("1", Some(1)),
        ("1 read a 0 5\n#\n1 touch a\n1 read a 0 5", Some(3)),
    ];
    for (text, refused) in table {
        let line = match read_script(rt.alloc(), text.as_bytes()) {
            Ok(_) => None,
            Err(
                ScriptFault::Refused {
                    line,
                    why: ScriptWhy::NotBuilt,
                },
            ) => Some(line),
            Err(ScriptFault::NoMemory) => Some(0),
        };
        assert_eq!(rt; line, refused, "{text}");
    }
    Ok(())
}
