//! Inputs read from memory, and histories printed into it.

use crate::{PrintFault, ReadFault, print_history, read_script};
use sea_base::{Data, Nths};
use sea_device::{MemSink, MemSource};
use sea_history::Entry;
use sea_object::Reply;
use sea_script::{Script, ScriptWhy, push_end, push_entry};
use std::alloc::Global;
use std::test::Fail;

// Reads an input in pieces of 1,000 bytes, of which the listed takes fail.
fn read(alloc: Global, input: &[u8], fails: Nths) -> Result<Script, ReadFault> {
    let Ok(bytes) = Data::new(alloc, input) else {
        return Err(ReadFault::NoMemory);
    };
    let mut source = MemSource::new(bytes, 1_000, fails);
    read_script(alloc, &mut source, true)
}

fn listed(alloc: Global, nth: u64) -> Result<Nths, Fail> {
    let mut nths = Nths::new(alloc);
    nths.push(nth)?;
    Ok(nths)
}

#[test]
fn a_script_is_read_in_pieces(rt: HostRuntime) -> Result<(), Fail> {
    let mut input = String::new(rt.alloc());
    for _ in 0..3_000u32 {
        input.push_str("2 write a 0 x41\n")?;
    }
    input.push_str("schedule\n1 sync\n")?;
    match read(rt.alloc(), input.as_bytes(), Nths::new(rt.alloc())) {
        Ok(script) => assert_eq!(rt; script.events.items().len(), 2),
        Err(fault) => assert!(rt; false, "{fault}"),
    }
    Ok(())
}

#[test]
fn what_is_no_script_is_refused(rt: HostRuntime) -> Result<(), Fail> {
    let refused = read(rt.alloc(), b"1 touch a\n1 tuch a\n", Nths::new(rt.alloc()));
    let why = ScriptWhy::BadOp;
    assert_eq!(rt; refused.err(), Some(ReadFault::Script { line: 2, why }));
    let failed = read(rt.alloc(), b"1 touch a\n", listed(rt.alloc(), 2)?);
    assert_eq!(rt; failed.err(), Some(ReadFault::Source));
    Ok(())
}

// So many entries of client 1, each of them full.
fn entries(alloc: Global, count: u32) -> Result<Vec<Entry>, Fail> {
    let mut entries = Vec::new(alloc);
    for number in 0..count {
        let reply = Reply::Full {
            need: number,
            rest: 0,
            empty: 0,
        };
        entries.push(Entry {
            client: 1,
            number,
            reply,
        })?;
    }
    Ok(entries)
}

fn text_of(alloc: Global, entries: &[Entry], count: u32, last: &str) -> Result<String, Fail> {
    let mut text = String::new(alloc);
    for entry in entries {
        push_entry(&mut text, entry)?;
    }
    push_end(&mut text, count, 7)?;
    text.push_str(last)?;
    Ok(text)
}

// Puts out entries, of which there are few enough.
fn print(
    alloc: Global,
    out: &mut MemSink,
    entries: &[Entry],
    last: &str,
) -> Result<(), PrintFault> {
    if entries.len() > 160_000 {
        return Err(PrintFault::NoMemory);
    }
    print_history(alloc, out, entries, 7, last)
}

#[test]
fn a_history_is_put_out_entry_by_entry(rt: HostRuntime) -> Result<(), Fail> {
    for count in [0u32, 1, 20_000] {
        let entries = entries(rt.alloc(), count)?;
        let text = text_of(rt.alloc(), &entries, count, "device fault\n")?;
        let mut out = MemSink::new(rt.alloc(), 1_000_000, Nths::new(rt.alloc()))?;
        let done = print(rt.alloc(), &mut out, &entries, "device fault\n");
        assert_eq!(rt; done, Ok(()));
        assert!(rt; out.taken() == text.as_bytes());
    }
    Ok(())
}

#[test]
fn a_sink_that_fails_has_a_front(rt: HostRuntime) -> Result<(), Fail> {
    let entries = entries(rt.alloc(), 20_000)?;
    let text = text_of(rt.alloc(), &entries, 20_000, "")?;
    for room in [100_000usize, 300_000] {
        let mut out = MemSink::new(rt.alloc(), room as u64, Nths::new(rt.alloc()))?;
        let done = print(rt.alloc(), &mut out, &entries, "");
        assert_eq!(rt; done, Err(PrintFault::Sink));
        assert!(rt; text.as_bytes().get(..room) == Some(out.taken()));
    }
    Ok(())
}
