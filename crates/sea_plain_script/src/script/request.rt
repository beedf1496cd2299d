//! The request of a line.
ghost use Rattle.std.specs.Prelude.{[], ◌∷◌};
ghost use Rattle.sea_plain_script.specs.ScriptReading.{AreOps, Finds, IsSpelled, Reads, left, verb_word};
ghost use Rattle.sea_plain_script.specs.Script.{Asks, op_words};

use crate::Asked;
use crate::script::fault::LineFault;
use crate::script::parts::Parts;
use crate::script::word::{NOT_BUILT, data, name, number, word};
use sea_base::Sequence;
use sea_plain::{Op, Ops, Request};
use std::alloc::Global;

/// The request that a line asks for.
pub fn asked(alloc: Global, line: &[u8]) -> Result<Asked, LineFault>
    ensures { Finds (Asks line.now) result }
{
    let mut words = Parts::new(b' ', line);
    let client = number(&mut words)?;
    if client != 1 {
        return Err(NOT_BUILT);
    }
    let ops = ops(alloc, &mut words)?;
    let Ok(request) = Request::new(ops) else {
        return Err(NOT_BUILT);
    };
    Ok(Asked { client, request })
}

// Reads the operations that the words left are.
fn ops(alloc: Global, words: &mut Parts) -> Result<Ops, LineFault>
    ensures { Finds (AreOps (left words.old)) result }
{
    let mut ops = Sequence::new(alloc);
    loop {
        let op = op(alloc, words)?;
        ops.push(op)?;
        let Some(word) = words.next() else {
            return Ok(ops);
        };
        if word != b";".as_slice() {
            return Err(NOT_BUILT);
        }
    }
}

/// What an operation does.
#[derive(Clone, Copy, Debug, Drop)]
pub enum Verb {
    Write,
    Read,
}

// Reads what an operation does.
fn read_verb(words: &mut Parts) -> Result<Verb, LineFault>
    ensures { Reads (λ _. Unit {0}) (λ verb. verb_word verb ∷ []) (left words.old) (left words.new) result }
{
    let word = word(words)?;
    if word == b"write".as_slice() {
        Ok(Verb::Write)
    } else if word == b"read".as_slice() {
        Ok(Verb::Read)
    } else {
        Err(NOT_BUILT)
    }
}

// Reads an operation.
fn op(alloc: Global, words: &mut Parts) -> Result<Op, LineFault>
    ensures { Reads IsSpelled op_words (left words.old) (left words.new) result }
{
    match read_verb(words)? {
        Verb::Write => {
            let name = name(alloc, words)?;
            let offset = number(words)?;
            let bytes = data(alloc, words)?;
            Ok(Op::Write {
                name,
                offset,
                bytes,
            })
        }
        Verb::Read => {
            let name = name(alloc, words)?;
            let offset = number(words)?;
            let length = number(words)?;
            Ok(Op::Read {
                name,
                offset,
                length,
            })
        }
    }
}
