//! The lines that a history prints.
ghost use Rattle.std.specs.Prelude.{◌≡◌, ◌++◌, ◌∷◌, IfOk, OnErr, OnOk, string_bytes};
ghost use Rattle.std.specs.List.{flat_map};
ghost use Rattle.sea_script.specs.Word.{byte_text, data_text, name_text};
ghost use Rattle.sea_script.specs.Render.{TellsApart, end_line, entry_line, item_text, items_text, names_text, pair_text_of, pairs_text, reply_text, why_text};

use crate::word::stands_for_itself;
use sea_base::{Data, Key, Name, NoMemory};
use sea_history::Entry;
use sea_object::{Item, Reply, Why};
use std::alloc::Global;
use std::fmt::Write;

/// Appends the line of an entry. After want of memory the text is as it was.
pub fn push_entry(text: &mut String, entry: &Entry) -> Result<(), NoMemory>
    ensures ok { OnOk result
        (string_bytes text.new ≡ string_bytes text.old ++ entry_line entry.now) }
    ensures err { OnErr result (string_bytes text.new ≡ string_bytes text.old) }
{
    let line = line_of(*text.allocator(), entry)?;
    text.push_str(&line)?;
    Ok(())
}

/// Appends the closing line: how many lines stand before it, and how often a client was sent back.
/// Behind it, a text is that of one history alone. After want of memory the text is as it was.
pub fn push_end(text: &mut String, entries: u32, sent_back: u64) -> Result<(), NoMemory>
    ensures line { OnOk result
        (string_bytes text.new ≡ string_bytes text.old ++ end_line entries sent_back) }
    ensures err { OnErr result (string_bytes text.new ≡ string_bytes text.old) }
    ensures apart { TellsApart }
{
    let line = closing_line(*text.allocator(), entries, sent_back)?;
    text.push_str(&line)?;
    Ok(())
}

#[tactic(auto, unfolding(crate::specs::Render::entry_line))]
fn line_of(alloc: Global, entry: &Entry) -> Result<String, NoMemory>
    ensures { IfOk result (λ line. string_bytes line ≡ entry_line entry.now) }
{
    let mut line = String::new(alloc);
    write!(line, "{} {} ", entry.client, entry.number)?;
    push_reply(&mut line, &entry.reply)?;
    line.push('\n')?;
    Ok(line)
}

#[tactic(auto, unfolding(crate::specs::Render::end_line))]
fn closing_line(alloc: Global, entries: u32, sent_back: u64) -> Result<String, NoMemory>
    ensures { IfOk result (λ line. string_bytes line ≡ end_line entries sent_back) }
{
    let mut line = String::new(alloc);
    write!(line, "end {entries} {sent_back}\n")?;
    Ok(line)
}

#[tactic(auto, unfolding(crate::specs::Render::reply_text))]
fn push_reply(text: &mut String, reply: &Reply) -> Result<(), NoMemory>
    ensures { OnOk result (string_bytes text.new ≡ string_bytes text.old ++ reply_text reply.now) }
{
    match reply {
        Reply::Done(items) => {
            text.push_str("done")?;
            push_items(text, items.items())
        }
        Reply::Refused { op, why } => {
            write!(text, "refused {op} ")?;
            text.push_str(why_text(*why))?;
            Ok(())
        }
        Reply::Full { need, rest, empty } => {
            write!(text, "full {need} {rest} {empty}")?;
            Ok(())
        }
    }
}

fn why_text(why: Why) -> &'static str
    ensures { result.now ≡ why_text why }
{
    match why {
        Why::NoObject => "NoObject",
        Why::OmapFull => "OmapFull",
        Why::AttrFull => "AttrFull",
    }
}

#[tactic(auto, unfolding(crate::specs::Render::items_text))]
fn push_items(text: &mut String, items: &[Item]) -> Result<(), NoMemory>
    ensures { OnOk result (string_bytes text.new ≡ string_bytes text.old ++ items_text items.now) }
{
    for item in items {
        text.push(' ')?;
        push_item(text, item)?;
    }
    Ok(())
}

#[tactic(auto, unfolding(crate::specs::Render::item_text))]
fn push_item(text: &mut String, item: &Item) -> Result<(), NoMemory>
    ensures { OnOk result (string_bytes text.new ≡ string_bytes text.old ++ item_text item.now) }
{
    match item {
        Item::Unit => text.push('-')?,
        Item::Absent => text.push_str("none")?,
        Item::Bytes(bytes) => push_data(text, bytes.bytes())?,
        Item::Number(number) => write!(text, "n{number}")?,
        Item::Names(names) => push_names(text, names.items())?,
        Item::Pairs(pairs) => push_pairs(text, pairs.items())?,
    }
    Ok(())
}

#[tactic(auto, unfolding(crate::specs::Render::names_text))]
fn push_names(text: &mut String, names: &[Name]) -> Result<(), NoMemory>
    ensures { OnOk result (string_bytes text.new ≡ string_bytes text.old ++ names_text names.now) }
{
    write!(text, "l{}", names.len())?;
    for name in names {
        text.push(' ')?;
        push_name(text, name.bytes())?;
    }
    Ok(())
}

#[tactic(auto, unfolding(crate::specs::Render::pairs_text))]
fn push_pairs(text: &mut String, pairs: &[(Key, Data)]) -> Result<(), NoMemory>
    ensures { OnOk result (string_bytes text.new ≡ string_bytes text.old ++ pairs_text pairs.now) }
{
    write!(text, "p{}", pairs.len())?;
    for pair in pairs {
        push_pair(text, pair)?;
    }
    Ok(())
}

fn push_pair(text: &mut String, pair: &(Key, Data)) -> Result<(), NoMemory>
    ensures { OnOk result (string_bytes text.new ≡ string_bytes text.old ++ pair_text_of pair.now) }
{
    text.push(' ')?;
    push_name(text, pair.0.bytes())?;
    text.push(' ')?;
    push_data(text, pair.1.bytes())
}

#[tactic(auto, unfolding(crate::specs::Word::name_text))]
fn push_name(text: &mut String, bytes: &[u8]) -> Result<(), NoMemory>
    ensures { OnOk result (string_bytes text.new ≡ string_bytes text.old ++ name_text bytes.now) }
{
    for byte in bytes {
        push_name_byte(text, *byte)?;
    }
    Ok(())
}

#[tactic(auto, unfolding(crate::specs::Word::byte_text, crate::specs::Word::pair_text))]
fn push_name_byte(text: &mut String, byte: u8) -> Result<(), NoMemory>
    ensures { OnOk result (string_bytes text.new ≡ string_bytes text.old ++ byte_text byte) }
{
    if stands_for_itself(byte) {
        text.push(byte as char)?;
    } else {
        let digits = hex::encode(*text.allocator(), [byte].as_slice())?;
        text.push('%')?;
        text.push_str(&digits)?;
    }
    Ok(())
}

#[tactic(auto, unfolding(crate::specs::Word::data_text))]
fn push_data(text: &mut String, bytes: &[u8]) -> Result<(), NoMemory>
    ensures { OnOk result (string_bytes text.new ≡ string_bytes text.old ++ data_text bytes.now) }
{
    let digits = hex::encode(*text.allocator(), bytes)?;
    text.push('x')?;
    text.push_str(&digits)?;
    Ok(())
}
