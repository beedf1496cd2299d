//! The operations of a line.
ghost use Rattle.std.specs.Prelude.{◌≡◌, ◌∷◌, length, position, IfOk};
ghost use Rattle.sea_script.specs.Argument.{kinds};
ghost use Rattle.sea_script.specs.Operation.{arguments, verb_of};
ghost use Rattle.sea_script.specs.ReadingLines.{ReadsOp, ReadsOps, op_parts_left};
ghost use Rattle.sea_script.specs.Reading.{seen};
ghost use Rattle.sea_script.specs.Script.{is_mark, parts};
ghost use Rattle.sea_script.specs.Table.{IsCount, kinds_for};

use crate::ScriptWhy;
use crate::argument::Arguments;
use crate::fault::LineFault;
use crate::table::{Verb, row_of};
use sea_base::{NoMemory, Sequence};
use sea_object::{Op, Ops};
use std::alloc::Global;

const BAD_OP: LineFault = LineFault::Why(ScriptWhy::BadOp);

/// The operations that words spell, with the word `;` between two.
pub fn ops(alloc: Global, words: &[&[u8]]) -> Result<Ops, LineFault>
    ensures { ReadsOps (parts (seen words.now)) result }
{
    let mut ops = Vec::with_capacity(alloc, 1 + marks(words).min(15))?;
    let mut left = Some(words);
    while let Some(words) = left {
        let (part, behind) = cut(words);
        ops.push(op(alloc, part)?)?;
        left = behind;
    }
    Ok(Sequence::from_vec(ops))
}

// How many words are `;`, for the room that the operations take.
fn marks(words: &[&[u8]]) -> usize {
    words.iter().filter(|word| is_mark(**word)).count()
}

// The words before the first `;`, and those behind it.
fn cut<'a, 'w>(words: &'w [&'a [u8]]) -> (&'w [&'a [u8]], Option<&'w [&'a [u8]]>)
    ensures { parts (seen words.now) ≡ seen result.0.now ∷ op_parts_left result.1 }
{
    match first_mark(words) {
        None => (words, None),
        Some(end) => (&words[..end], Some(&words[end + 1..])),
    }
}

// Where the word `;` stands first.
fn first_mark(words: &[&[u8]]) -> Option<usize>
    ensures { result ≡ position (λ word. is_mark word.now) words.now }
{
    words.iter().position(|word| is_mark(*word))
}

fn is_mark(word: &[u8]) -> bool
    ensures { result ≡ is_mark word.now }
{
    word == b";".as_slice()
}

// The operation that words spell.
fn op(alloc: Global, words: &[&[u8]]) -> Result<Op, LineFault>
    ensures { ReadsOp (seen words.now) result }
{
    let Some((word, others)) = words.split_first() else {
        return Err(BAD_OP);
    };
    let Some(row) = row_of(*word) else {
        return Err(BAD_OP);
    };
    let arguments = Arguments::read(alloc, row, others)?;
    Ok(make(alloc, row.1, arguments)?)
}

// The operation with these parts.
fn make(alloc: Global, verb: Verb, mut of: Arguments) -> Result<Op, NoMemory>
    requires counted { IsCount verb (length of) }
    requires listed { kinds of ≡ kinds_for verb (length of) }
    ensures { IfOk result (λ op. (verb_of op ≡ verb) × (arguments op ≡ of)) }
{
    Ok(match verb {
        Verb::Touch => Op::Touch { name: of.name() },
        Verb::Write => Op::Write {
            name: of.name(),
            offset: of.number(),
            bytes: of.bytes(),
        },
        Verb::Zero => Op::Zero {
            name: of.name(),
            offset: of.number(),
            length: of.number(),
        },
        Verb::Truncate => Op::Truncate {
            name: of.name(),
            size: of.number(),
        },
        Verb::Remove => Op::Remove { name: of.name() },
        Verb::SetAttr => Op::SetAttr {
            name: of.name(),
            key: of.name(),
            value: of.bytes(),
        },
        Verb::RmAttr => Op::RmAttr {
            name: of.name(),
            key: of.name(),
        },
        Verb::RmAttrs => Op::RmAttrs { name: of.name() },
        Verb::OmapSetKeys => Op::OmapSetKeys {
            name: of.name(),
            pairs: of.pairs(alloc)?,
        },
        Verb::OmapRmKeys => Op::OmapRmKeys {
            name: of.name(),
            keys: of.names(alloc)?,
        },
        Verb::OmapRmKeyRange => Op::OmapRmKeyRange {
            name: of.name(),
            from: of.name(),
            to: of.name(),
            bound: of.number(),
        },
        Verb::OmapClear => Op::OmapClear { name: of.name() },
        Verb::Read => Op::Read {
            name: of.name(),
            offset: of.number(),
            length: of.number(),
        },
        Verb::Stat => Op::Stat { name: of.name() },
        Verb::GetAttr => Op::GetAttr {
            name: of.name(),
            key: of.name(),
        },
        Verb::GetAttrs => Op::GetAttrs { name: of.name() },
        Verb::OmapGet => Op::OmapGet {
            name: of.name(),
            key: of.name(),
        },
        Verb::OmapList => Op::OmapList {
            name: of.name(),
            limit: of.number(),
            after: of.last_name(),
        },
        Verb::List => Op::List {
            limit: of.number(),
            after: of.last_name(),
        },
    })
}
