//! Adding to a vector that has its room already.
ghost use Rattle.std.specs.Prelude.{◌≡◌, ◌+◌, ◌≤◌, ◌++◌, length, vec_len, vec_capacity};

/// Adds items at the end of a vector that has room for them.
pub fn append<T: Copy + Drop>(to: &mut Vec<T>, items: &[T])
    requires { vec_len to.old + length items.now ≤ vec_capacity to.old }
    ensures items { to.new.items ≡ to.old.items ++ items.now }
    ensures capacity { vec_capacity to.old ≤ vec_capacity to.new }
{
    let Ok(()) = to.extend_from_slice(items) else {
        unreachable!()
    };
}
