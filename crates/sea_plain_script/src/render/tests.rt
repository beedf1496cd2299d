use super::*;
use crate::Entry;
use sea_base::Data;
use sea_plain::Items;
use std::test::Fail;

#[test]
fn a_done_line_has_client_number_and_items(rt: HostRuntime) -> Result<(), Fail> {
    let mut items = Items::new(rt.alloc());
    items.push(Item::Unit)?;
    items.push(Item::Absent)?;
    items.push(Item::Bytes(Data::new(rt.alloc(), b"hi")?))?;
    let entry = Entry {
        client: 3,
        number: 12,
        reply: Reply::Done(items),
    };
    let mut text = String::new(rt.alloc());
    push_entry(&mut text, &entry)?;
    assert_eq!(rt; text.as_str(), "3 12 done - none x6869\n");
    Ok(())
}

#[test]
fn a_full_line_and_the_closing_line(rt: HostRuntime) -> Result<(), Fail> {
    let entry = Entry {
        client: 1,
        number: 2,
        reply: Reply::Full {
            need: 3,
            rest: 2,
            empty: 0,
        },
    };
    let mut text = String::new(rt.alloc());
    push_entry(&mut text, &entry)?;
    push_end(&mut text, 1, 0)?;
    assert_eq!(rt; text.as_str(), "1 2 full 3 2 0\nend 1 0\n");
    Ok(())
}
