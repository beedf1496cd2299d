//! Big-endian numbers appended to bytes.
ghost use Rattle.std.specs.Prelude.{◌≡◌, ◌++◌, OnOk};
ghost use Rattle.sea_base.specs.Field.{big_endian};

use crate::{NoMemory, put_u16, put_u32, put_u64};

/// Appends a number in 2 bytes.
pub fn push_u16(bytes: &mut Vec<u8>, value: u16) -> Result<(), NoMemory>
    ensures { OnOk result (bytes.new.items ≡ bytes.old.items ++ big_endian 2 value) }
{
    let mut field = [0; 2];
    put_u16(&mut field, 0, value);
    bytes.extend_from_slice(&field)?;
    Ok(())
}

/// Appends a number in 4 bytes.
pub fn push_u32(bytes: &mut Vec<u8>, value: u32) -> Result<(), NoMemory>
    ensures { OnOk result (bytes.new.items ≡ bytes.old.items ++ big_endian 4 value) }
{
    let mut field = [0; 4];
    put_u32(&mut field, 0, value);
    bytes.extend_from_slice(&field)?;
    Ok(())
}

/// Appends a number in 8 bytes.
pub fn push_u64(bytes: &mut Vec<u8>, value: u64) -> Result<(), NoMemory>
    ensures { OnOk result (bytes.new.items ≡ bytes.old.items ++ big_endian 8 value) }
{
    let mut field = [0; 8];
    put_u64(&mut field, 0, value);
    bytes.extend_from_slice(&field)?;
    Ok(())
}
