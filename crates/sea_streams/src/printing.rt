//! Putting out what a run served, entry by entry.
ghost use Rattle.std.specs.Prelude.{◌≡◌, ◌≤◌, length, string_bytes, OnOk, OnErr, IfErr};
ghost use Rattle.sea_device.specs.Device.{HasCause};
ghost use Rattle.sea_history.specs.declared.history.TheConstants.{HISTORY_ENTRIES};
ghost use Rattle.sea_streams.specs.Streams.{Grows, PutsOut, TakesFront, IsSinkFault, run_text};

use crate::PrintFault;
use sea_device::{Failed, Sink};
use sea_history::{Entry, HISTORY_ENTRIES};
use sea_script::{push_end, push_entry};
use std::alloc::Global;

/// A text is put out once it has so many bytes.
const PIECE_BYTES: usize = 65_536;

/// Puts out the lines of entries, the closing line, and behind it `last`, the line of a refusal or
/// nothing. What stands in memory of it is one piece of 64 KiB and the line of one entry at most.
/// After a fault the sink has taken a front of it.
pub fn print_history<O: Sink>(
    alloc: Global,
    out: &mut O,
    entries: &[Entry],
    sent_back: u64,
    last: &str,
) -> Result<(), PrintFault>
    requires { length entries.now ≤ HISTORY_ENTRIES }
    ensures ok { OnOk result (Grows (run_text entries.now sent_back last.now)
        (O.taken out.old) (O.taken out.new)) }
    ensures err { OnErr result (TakesFront (run_text entries.now sent_back last.now)
        (O.taken out.old) (O.taken out.new)) }
    ensures fault { IfErr result (IsSinkFault (O.faults out.old) (O.faults out.new)) }
    ensures quiet { OnOk result (O.faults out.new ≡ O.faults out.old) }
    ensures later { O.faults out.old ≤ O.faults out.new }
{
    let mut text = String::new(alloc);
    for entry in entries {
        push_entry(&mut text, entry)?;
        put_piece(out, &mut text)?;
    }
    push_end(&mut text, entries.len() as u32, sent_back)?;
    text.push_str(last)?;
    put_all(out, text.as_bytes())?;
    Ok(())
}

// Puts out what stands in hand, once it is a piece.
fn put_piece<O: Sink>(out: &mut O, text: &mut String) -> Result<(), Failed>
    ensures ok { OnOk result (PutsOut (string_bytes text.old) (string_bytes text.new)
        (O.taken out.old) (O.taken out.new)) }
    ensures err { OnErr result
        (TakesFront (string_bytes text.old) (O.taken out.old) (O.taken out.new)) }
    ensures cause { HasCause (O.faults out.old) (O.faults out.new) result }
    ensures quiet { OnOk result (O.faults out.new ≡ O.faults out.old) }
{
    if text.len() >= PIECE_BYTES {
        put_all(out, text.as_bytes())?;
        text.clear();
    }
    Ok(())
}

/// Puts all bytes out. A sink that fails has taken a front of them.
pub fn put_all<O: Sink>(out: &mut O, bytes: &[u8]) -> Result<(), Failed>
    ensures ok { OnOk result (Grows bytes.now (O.taken out.old) (O.taken out.new)) }
    ensures err { OnErr result (TakesFront bytes.now (O.taken out.old) (O.taken out.new)) }
    ensures cause { HasCause (O.faults out.old) (O.faults out.new) result }
    ensures quiet { OnOk result (O.faults out.new ≡ O.faults out.old) }
{
    let mut rest = bytes;
    while !rest.is_empty() {
        let count = out.put(rest)?;
        rest = &rest[count..];
    }
    Ok(())
}
