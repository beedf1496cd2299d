//! Histories, and lines that no script here prints.

use crate::serving::text_of;
use sea_base::NoMemory;
use sea_history::{Entry, History};
use sea_object::{Reply, Why};
use sea_script::push_entry;
use std::alloc::Global;
use std::test::Fail;

const FULL: Reply = Reply::Full {
    need: 18,
    rest: 4_294_967_295,
    empty: 0,
};

#[test]
fn a_history_counts_what_is_acknowledged_and_sent_back(rt: HostRuntime) -> Result<(), Fail> {
    let mut history = History::new(rt.alloc(), 2)?;
    history.reserve()?;
    history.add(2, FULL);
    history.acknowledge();
    history.note_back();
    history.note_back();
    assert_eq!(rt; (history.acknowledged(), history.sent_back()), (1, 2));
    let text = text_of(rt.alloc(), &history)?;
    assert_eq!(rt; text.as_str(), "2 1 full 18 4294967295 0\nend 1 2\n");
    Ok(())
}

#[test]
fn each_reason_of_a_refused_request_is_printed(rt: HostRuntime) -> Result<(), Fail> {
    let table = [
        (Why::NoObject, "3 12 refused 16 NoObject\n"),
        (Why::OmapFull, "3 12 refused 16 OmapFull\n"),
        (Why::AttrFull, "3 12 refused 16 AttrFull\n"),
    ];
    for (why, expected) in table {
        assert_eq!(rt; refused(rt.alloc(), why)?.as_str(), expected);
    }
    Ok(())
}

fn refused(alloc: Global, why: Why) -> Result<String, NoMemory> {
    let entry = Entry {
        client: 3,
        number: 12,
        reply: Reply::Refused { op: 16, why },
    };
    let mut text = String::new(alloc);
    push_entry(&mut text, &entry)?;
    Ok(text)
}
