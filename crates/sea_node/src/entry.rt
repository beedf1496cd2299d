//! The bytes of an entry.
ghost use Rattle.std.specs.Prelude.{◌≡◌, ◌<◌, ◌^◌, ◌++◌, length, OnOk};
ghost use Rattle.sea_node.specs.Entries.{entry_size, entry_bytes};

use sea_base::{Data, Key, NoMemory, put_u16};

/// The bytes that an entry takes.
pub(crate) fn size_of_entry(key: &Key, value: &Data) -> usize
    requires { length value.now < 2 ^ 16 }
    ensures { result ≡ entry_size (key.now, value.now) }
{
    3 + key.bytes().len() + value.len()
}

/// Appends the bytes of an entry.
pub(crate) fn push_entry(bytes: &mut Vec<u8>, key: &Key, value: &Data) -> Result<(), NoMemory>
    requires { length value.now < 2 ^ 16 }
    ensures { OnOk result (bytes.new.items ≡ bytes.old.items ++ entry_bytes (key.now, value.now)) }
{
    let mut lengths = [key.bytes().len() as u8, 0, 0];
    put_u16(&mut lengths, 1, value.len() as u16);
    bytes.extend_from_slice(&lengths)?;
    bytes.extend_from_slice(key.bytes())?;
    bytes.extend_from_slice(value.bytes())?;
    Ok(())
}
