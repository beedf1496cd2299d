//! Names of every byte.

use crate::tests::texts::printed;
use std::alloc::{AllocError, Global};
use std::fmt::Write;
use std::test::Fail;

// The 64 bytes from one on, as a name is spelled.
fn spelled(alloc: Global, first: u8) -> Result<String, AllocError> {
    let mut text = String::new(alloc);
    for more in 0..64u8 {
        let byte = first.wrapping_add(more);
        if (33..=126).contains(&byte) && byte != b'%' && byte != b';' {
            text.push(char::from(byte))?;
        } else {
            write!(text, "%{byte:02x}")?;
        }
    }
    Ok(text)
}

#[test]
fn a_name_of_every_byte_is_read_and_printed(rt: HostRuntime) -> Result<(), Fail> {
    let alloc = rt.alloc();
    for first in [0u8, 64, 128, 192] {
        let name = spelled(alloc, first)?;
        let script = format!(in alloc; "1 touch {name} ; list 1")?;
        let expected = format!(in alloc; "1 1 done - l1 {name}\nend 1 0\n")?;
        let text = printed(alloc, script.as_str())?;
        assert_eq!(rt; text.as_str(), expected.as_str());
    }
    Ok(())
}
