//! Logical addresses in order.
ghost use Rattle.std.specs.Prelude.{◌≡◌, ◌↔◌, IsTrue};
ghost use Rattle.sea_record.specs.Addresses.{IsRising, NeverFalls, IsApart, IsGiven, AreOrdered};

/// Whether those placed, dropped and changed are in order, were given, and are in one list alone.
pub fn are_ordered(next: u64, placed: &[u64], dropped: &[u64], changed: &[u64]) -> bool
    ensures { IsTrue result ↔ AreOrdered next placed.now dropped.now changed.now }
{
    is_rising(placed)
        && is_rising(dropped)
        && never_falls(changed)
        && are_given(placed, next)
        && are_given(dropped, next)
        && are_given(changed, next)
        && are_apart(placed, dropped)
        && are_apart(placed, changed)
        && are_apart(dropped, changed)
}

// Whether they rise strictly.
fn is_rising(addresses: &[u64]) -> bool
    ensures { IsTrue result ↔ IsRising addresses.now }
{
    for i in 1..addresses.len() {
        if addresses[i - 1] >= addresses[i] {
            return false;
        }
    }
    true
}

// Whether they never fall.
fn never_falls(addresses: &[u64]) -> bool
    ensures { IsTrue result ↔ NeverFalls addresses.now }
{
    for i in 1..addresses.len() {
        if addresses[i - 1] > addresses[i] {
            return false;
        }
    }
    true
}

// Whether each is at least 1 and below the next address.
fn are_given(addresses: &[u64], next: u64) -> bool
    ensures { IsTrue result ↔ IsGiven next addresses.now }
{
    addresses.iter().all(|at| *at >= 1 && *at < next)
}

// Whether two lists that never fall have no address in common, in one pass over both.
fn are_apart(first: &[u64], second: &[u64]) -> bool
    requires first { NeverFalls first.now }
    requires second { NeverFalls second.now }
    ensures { IsTrue result ↔ IsApart first.now second.now }
{
    let mut i = 0;
    let mut j = 0;
    while i < first.len() && j < second.len() {
        if first[i] == second[j] {
            return false;
        }
        if first[i] < second[j] {
            i += 1;
        } else {
            j += 1;
        }
    }
    true
}
