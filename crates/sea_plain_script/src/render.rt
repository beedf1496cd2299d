//! The lines that a history prints.
ghost use Rattle.std.specs.Prelude.{◌≡◌, ◌++◌, ◌∷◌, OnOk, string_bytes};
ghost use Rattle.std.specs.List.{flat_map};
ghost use Rattle.sea_plain_script.specs.Script.{data_text};
ghost use Rattle.sea_plain_script.specs.Render.{item_text, items_text, reply_text, entry_line, end_line};

use crate::Entry;
use sea_base::NoMemory;
use sea_plain::{Item, Reply};
use std::alloc::Global;
use std::fmt::Write;

/// Appends the line of an entry.
#[tactic(auto, unfolding(crate::specs::Render::entry_line))]
pub fn push_entry(text: &mut String, entry: &Entry) -> Result<(), NoMemory>
    ensures { OnOk result (string_bytes text.new ≡ string_bytes text.old ++ entry_line entry.now) }
{
    write!(text, "{} {} ", entry.client, entry.number)?;
    push_reply(text, &entry.reply)?;
    text.push('\n')?;
    Ok(())
}

/// Appends the closing line: how many lines stand before it, and how often a client was sent back.
#[tactic(auto, unfolding(crate::specs::Render::end_line))]
pub fn push_end(text: &mut String, entries: usize, sent_back: u64) -> Result<(), NoMemory>
    ensures { OnOk result (string_bytes text.new ≡ string_bytes text.old ++ end_line entries sent_back) }
{
    write!(text, "end {entries} {sent_back}\n")?;
    Ok(())
}

#[tactic(auto, unfolding(crate::specs::Render::reply_text))]
fn push_reply(text: &mut String, reply: &Reply) -> Result<(), NoMemory>
    ensures { OnOk result (string_bytes text.new ≡ string_bytes text.old ++ reply_text reply.now) }
{
    match reply {
        Reply::Done(items) => {
            text.push_str("done")?;
            push_items(text, items.items())
        }
        Reply::Full { need, rest, empty } => {
            write!(text, "full {need} {rest} {empty}")?;
            Ok(())
        }
    }
}

#[tactic(auto, unfolding(crate::specs::Render::items_text))]
fn push_items(text: &mut String, items: &[Item]) -> Result<(), NoMemory>
    ensures { OnOk result (string_bytes text.new ≡ string_bytes text.old ++ items_text items.now) }
{
    for item in items {
        text.push(' ')?;
        push_item(text, item)?;
    }
    Ok(())
}

#[tactic(auto, unfolding(crate::specs::Render::item_text))]
fn push_item(text: &mut String, item: &Item) -> Result<(), NoMemory>
    ensures { OnOk result (string_bytes text.new ≡ string_bytes text.old ++ item_text item.now) }
{
    match item {
        Item::Unit => text.push('-')?,
        Item::Absent => text.push_str("none")?,
        Item::Bytes(bytes) => push_data(text, bytes.bytes())?,
    }
    Ok(())
}

#[tactic(auto, unfolding(crate::specs::Script::data_text))]
fn push_data(text: &mut String, bytes: &[u8]) -> Result<(), NoMemory>
    ensures { OnOk result (string_bytes text.new ≡ string_bytes text.old ++ data_text bytes.now) }
{
    let digits = hex::encode(*text.allocator(), bytes)?;
    text.push('x')?;
    text.push_str(&digits)?;
    Ok(())
}

#[cfg(test)]
mod tests;
