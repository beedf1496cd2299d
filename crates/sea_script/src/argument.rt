//! The words that an operation takes behind its own.
ghost use Rattle.std.specs.Prelude.{◌≡◌, ◌↔◌, ℕ, [], ◌∷◌, ◌++◌, ◌+◌, ◌<◌, ◌≤◌, ◌%◌, length, map, replicate, slice_get, Some, IfOk, IsTrue};
ghost use Rattle.std.specs.List.{flat_map};
ghost use Rattle.sea_script.specs.Argument.{bad, kinds, pair_arguments, option_arguments};
ghost use Rattle.sea_script.specs.Reading.{Finds, IsRow, ReadsArguments, Says, seen};
ghost use Rattle.sea_script.specs.Table.{MayFollow, alternate, further_kinds};

use crate::ScriptWhy;
use crate::fault::LineFault;
use crate::table::{Further, Kind, Row};
use crate::word::{data_of, name_of, number_of};
use sea_base::{Data, Key, Name, Names, NoMemory, Pairs, Sequence};
use std::alloc::Global;
use std::marker::Model;

/// What a word of an operation says.
#[derive(Debug, Drop)]
pub enum Argument {
    /// The name of an object, or a key.
    Name(Name),
    /// A number.
    Number(u32),
    /// Bytes.
    Bytes(Data),
}

/// The parts of an operation, which contracts see as the list of those that are left. They are taken
/// one by one.
#[derive(Drop)]
pub struct Arguments {
    left: std::vec::IntoIter<Argument>,
}

impl Model for Arguments {
    ghost use Rattle.std.specs.Prelude.{List};
    ghost use Rattle.std.specs.Vec.Iter.{into_iter_items};
    ghost use Rattle.sea_script.specs.declared.argument.Argument.{Argument};

    ghost Value = { List Argument };

    ghost view = { λ a. into_iter_items a.left };
}

impl Arguments {
    /// What the words behind an operation's own say.
    pub fn read(alloc: Global, row: Row, words: &[&[u8]]) -> Result<Arguments, LineFault>
        requires { IsRow row }
        ensures { ReadsArguments row.entry.1 (seen words.now) result }
    {
        let (_, _, first, further) = row;
        if words.len() < first.len() || !further.may_follow(words.len() - first.len()) {
            return Err(LineFault::Why(ScriptWhy::BadOp));
        }
        let mut arguments = Vec::with_capacity(alloc, words.len())?;
        for (index, word) in words.iter().enumerate() {
            let kind = kind_at(first, further, index);
            arguments.push(read_word(alloc, kind, *word)?)?;
        }
        Ok(Arguments {
            left: arguments.into_iter(),
        })
    }

    /// Whether none is left.
    pub fn is_empty(&self) -> bool
        ensures { IsTrue result ↔ (self.now ≡ []) }
    {
        self.left.len() == 0
    }

    /// Takes a name.
    pub fn name(&mut self) -> Name
        requires { slice_get (kinds self.old) 0 ≡ Some Kind.Name }
        ensures { self.old ≡ Argument.Name result ∷ self.new }
    {
        match self.left.next() {
            Some(Argument::Name(name)) => name,
            _ => unreachable!(),
        }
    }

    /// Takes a number.
    pub fn number(&mut self) -> u32
        requires { slice_get (kinds self.old) 0 ≡ Some Kind.Number }
        ensures { self.old ≡ Argument.Number result ∷ self.new }
    {
        match self.left.next() {
            Some(Argument::Number(number)) => number,
            _ => unreachable!(),
        }
    }

    /// Takes bytes.
    pub fn bytes(&mut self) -> Data
        requires { slice_get (kinds self.old) 0 ≡ Some Kind.Bytes }
        ensures { self.old ≡ Argument.Bytes result ∷ self.new }
    {
        match self.left.next() {
            Some(Argument::Bytes(bytes)) => bytes,
            _ => unreachable!(),
        }
    }

    /// Takes the last name, if one is left.
    pub fn last_name(mut self) -> Option<Name>
        requires few { length self ≤ 1 }
        requires names { kinds self ≡ replicate (length self) Kind.Name }
        ensures { self ≡ option_arguments result }
    {
        if self.is_empty() {
            None
        } else {
            Some(self.name())
        }
    }

    /// Takes the names that are left.
    pub fn names(mut self, alloc: Global) -> Result<Names, NoMemory>
        requires { kinds self ≡ replicate (length self) Kind.Name }
        ensures { IfOk result (λ names. self ≡ map Argument.Name names) }
    {
        let mut names = Vec::with_capacity(alloc, self.left.len())?;
        while !self.is_empty() {
            names.push(self.name())?;
        }
        Ok(Sequence::from_vec(names))
    }

    /// Takes the pairs that are left.
    pub fn pairs(mut self, alloc: Global) -> Result<Pairs, NoMemory>
        requires even { length self % 2 ≡ 0 }
        requires pairs { kinds self ≡ alternate (length self) }
        ensures { IfOk result (λ pairs. self ≡ flat_map pair_arguments pairs) }
    {
        let mut pairs = Vec::with_capacity(alloc, self.left.len() / 2)?;
        while !self.is_empty() {
            let key = self.name();
            let value = self.bytes();
            pairs.push((key, value))?;
        }
        Ok(Sequence::from_vec(pairs))
    }
}

// The kind of the word at this index.
fn kind_at(first: &[Kind], further: Further, index: usize) -> Kind
    ensures { (count : ℕ) → MayFollow further count → index < length first.now + count →
        slice_get (first.now ++ further_kinds further count) index ≡ Some result }
{
    if index < first.len() {
        first[index]
    } else {
        further.kind(index - first.len())
    }
}

// What a word of this kind says.
fn read_word(alloc: Global, kind: Kind, word: &[u8]) -> Result<Argument, LineFault>
    ensures { Finds (Says kind word.now) (bad kind) result }
{
    match kind {
        Kind::Name => Ok(Argument::Name(name_of(alloc, word)?)),
        Kind::Number => match number_of(word) {
            Some(number) => Ok(Argument::Number(number)),
            None => Err(LineFault::Why(ScriptWhy::BadNumber)),
        },
        Kind::Bytes => Ok(Argument::Bytes(data_of(alloc, word)?)),
    }
}
