//! Writing over bytes.
ghost use Rattle.std.specs.Prelude.{◌≡◌, ◌+◌, ◌≤◌, length};
ghost use Rattle.sea_device.specs.Device.{overwritten};

/// Lays bytes over the old ones from an offset on.
pub fn overwrite(old: &mut [u8], at: usize, bytes: &[u8])
    requires { at + length bytes.now ≤ length old.old }
    ensures { old.new ≡ overwritten at bytes.now old.old }
{
    old[at..at + bytes.len()].copy_from_slice(bytes);
}
