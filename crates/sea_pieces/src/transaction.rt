//! Open transactions.
ghost use Rattle.std.specs.Prelude.{◌≡◌, ◌≤◌, ◌∷◌, [], ◌++◌, List, false, length, take, drop};
ghost use Rattle.std.specs.Prelude.{Some, option_map, unwrap_or, IfOk, OnOk, IfSome};
ghost use Rattle.std.specs.List.{AllByRecursion};
ghost use Rattle.std.specs.Option.{option_copied};
ghost use Rattle.std.specs.FinMap as map;
ghost use Rattle.sea_object.specs.declared.op.Op.{Op};
ghost use Rattle.sea_object.specs.Answer.{effects, item, item_at};
ghost use Rattle.sea_object.specs.Objects.{ObjectMap};
ghost use Rattle.sea_object.specs.Op.{IsWithinLimits};
ghost use Rattle.sea_pieces.specs.Laying.{IsServed, SharesRead, after_piece, after_pieces, laid};
ghost use Rattle.sea_pieces.specs.Laying.{op_pieces, read_name};
ghost use Rattle.sea_pieces.specs.Committed.{objects_in, plain_object};
ghost use Rattle.sea_pieces.specs.Spelling.{IsPiece};
ghost use Rattle.sea_pieces.specs.Reads.{told};

use crate::content::Content;
use crate::{Committed, Piece, Pieces};
use sea_base::{Data, Duplicate, Name, NoMemory};
use sea_object::{Item, Items, Op};
use std::alloc::Global;
use std::marker::Model;

/// An open transaction: the items of the operations that it has done, and the pieces that its
/// commit lays over the committed objects.
#[derive(Debug, Drop)]
pub struct Transaction {
    alloc: Global,
    items: Items,
    pieces: Pieces,
}

impl Model for Transaction {
    ghost use Rattle.std.specs.List.{AllByRecursion};
    ghost use Rattle.sea_pieces.specs.Spelling.{IsPiece};
    ghost use Rattle.sea_pieces.specs.Transaction.{Done};

    ghost Value = { Done };

    ghost view = { λ t. record { items = t.items; pieces = t.pieces } };

    ghost invariant = { λ t. AllByRecursion IsPiece t.pieces };
}

impl Transaction {
    ghost use Rattle.sea_pieces.specs.Transaction.{Did};

    /// A transaction that has done nothing. It takes no memory.
    pub fn new(alloc: Global) -> Transaction
        ensures nothing { result ≡ record { items = []; pieces = [] } }
        ensures did { (objects : ObjectMap) → Did [] result objects }
    {
        Transaction {
            alloc,
            items: Items::new(alloc),
            pieces: Pieces::new(alloc),
        }
    }

    /// The items of the operations that were done, in order.
    pub fn items(&self) -> &Items
        ensures { result.now ≡ self.now.items }
    {
        &self.items
    }

    /// The pieces that a commit lays over the committed objects, in order.
    pub fn changes(&self) -> &[Piece]
        ensures changes { result.now ≡ self.now.pieces }
        ensures pieces { AllByRecursion IsPiece self.now.pieces }
        ensures laid { (ops : List Op) (objects : ObjectMap) → Did ops self.now objects →
            after_pieces self.now.pieces objects ≡ effects ops objects }
    {
        self.pieces.items()
    }

    /// The items of the operations that were done, and the pieces that a commit lays over the
    /// committed objects.
    pub fn into_parts(self) -> (Items, Pieces)
        ensures items { result.0 ≡ self.items }
        ensures pieces { result.1 ≡ self.pieces }
        ensures fit { AllByRecursion IsPiece self.pieces }
    {
        (self.items, self.pieces)
    }

    /// Does an operation on the committed objects with the transaction's own changes over them. It
    /// is right on all objects that have the same where it read the committed ones. After want of
    /// memory the transaction is to be given up.
    pub fn exec(&mut self, committed: &Committed, op: &Op) -> Result<(), NoMemory>
        requires served { IsServed op.now }
        requires limits { IsWithinLimits op.now }
        ensures items { OnOk result (self.new.items ≡ self.old.items
            ++ item op.now (after_pieces self.old.pieces (objects_in committed.now)) ∷ []) }
        ensures pieces { OnOk result (self.new.pieces ≡ self.old.pieces ++ op_pieces op.now) }
        ensures did { (ops : List Op) (objects : ObjectMap) → Did ops self.old objects →
            SharesRead (read_name op.now) objects (objects_in committed.now) →
            OnOk result (Did (ops ++ op.now ∷ []) self.new objects) }
    {
        let made = self.item(committed, op)?;
        self.items.push(made)?;
        push_pieces(self.alloc, &mut self.pieces, op)?;
        Ok(())
    }

    // What an operation answers.
    fn item(&self, committed: &Committed, op: &Op) -> Result<Item, NoMemory>
        requires { IsServed op.now }
        ensures { IfOk result (λ made. made ≡
            item op.now (after_pieces self.now.pieces (objects_in committed.now))) }
    {
        match op {
            Op::Read { name, .. } => self.item_of(committed, name, op),
            Op::Stat { name } => self.item_of(committed, name, op),
            _ => Ok(Item::Unit),
        }
    }

    // What an operation answers of the object of this name.
    fn item_of(&self, committed: &Committed, name: &Name, op: &Op) -> Result<Item, NoMemory>
        requires { read_name op.now ≡ Some name.now }
        ensures { IfOk result (λ made. made ≡ item_at op.now
            (map.get (after_pieces self.now.pieces (objects_in committed.now)) name.now)) }
    {
        if !self.has_piece_of(name) {
            return told(self.alloc, committed.bytes(name), op);
        }
        match self.view(committed, name)? {
            Some(content) => told(self.alloc, Some(content.bytes()), op),
            None => told(self.alloc, None, op),
        }
    }

    // Whether one of the pieces is of the object of this name.
    fn has_piece_of(&self, name: &Name) -> bool
        ensures { result ≡ false → (objects : ObjectMap) →
            map.get (after_pieces self.now.pieces objects) name.now ≡ map.get objects name.now }
    {
        for piece in self.pieces.items() {
            if piece.name == *name {
                return true;
            }
        }
        false
    }

    // The bytes of the object of this name, as the transaction sees it.
    fn view(&self, committed: &Committed, name: &Name) -> Result<Option<Content>, NoMemory>
        ensures { IfOk result (λ found. option_map plain_object found ≡
            map.get (after_pieces self.now.pieces (objects_in committed.now)) name.now) }
    {
        let mut found = committed.content(name)?;
        for piece in self.pieces.items() {
            see(self.alloc, &mut found, name, piece)?;
        }
        Ok(found)
    }
}

// Lays a piece over the bytes of the object of this name, if it is a piece of that object.
fn see(
    alloc: Global,
    found: &mut Option<Content>,
    name: &Name,
    piece: &Piece,
) -> Result<(), NoMemory>
    requires { IsPiece piece.now }
    ensures { (objects : ObjectMap) → option_map plain_object found.old ≡ map.get objects name.now →
        OnOk result (option_map plain_object found.new ≡
        map.get (after_piece piece.now objects) name.now) }
{
    if piece.name != *name {
        return Ok(());
    }
    lay_over(alloc, found, piece)?;
    Ok(())
}

// Lays a piece over an object's bytes, which are none where there was no object.
fn lay_over(alloc: Global, found: &mut Option<Content>, piece: &Piece) -> Result<(), NoMemory>
    requires { IsPiece piece.now }
    ensures { OnOk result (found.new ≡
        Some (laid piece.now.offset piece.now.bytes (unwrap_or found.old []))) }
{
    if let Some(content) = found {
        return content.lay(piece.offset as usize, piece.bytes.bytes());
    }
    let mut content = Content::new(alloc);
    content.lay(piece.offset as usize, piece.bytes.bytes())?;
    *found = Some(content);
    Ok(())
}

// What an operation answers of an object of these bytes, or of none.
fn told(alloc: Global, found: Option<&[u8]>, op: &Op) -> Result<Item, NoMemory>
    requires { IfSome found (λ bytes. length bytes.now ≤ 16777216) }
    ensures { IfOk result (λ made. made ≡ told op.now (option_copied found.entry)) }
{
    let Some(bytes) = found else {
        return Ok(Item::Absent);
    };
    match op {
        Op::Read { offset, length, .. } => read(alloc, bytes, *offset as usize, *length as usize),
        _ => Ok(Item::Number(bytes.len() as u32)),
    }
}

fn read(alloc: Global, bytes: &[u8], offset: usize, length: usize) -> Result<Item, NoMemory>
    ensures { IfOk result (λ made. made ≡ Item.Bytes (take length (drop offset bytes.now))) }
{
    let rest = &bytes[offset.min(bytes.len())..];
    Ok(Item::Bytes(Data::new(alloc, &rest[..length.min(rest.len())])?))
}

// Appends what an operation lays over its object.
fn push_pieces(alloc: Global, pieces: &mut Pieces, op: &Op) -> Result<(), NoMemory>
    requires { IsWithinLimits op.now }
    ensures pieces { OnOk result (pieces.new ≡ pieces.old ++ op_pieces op.now) }
    ensures fit { AllByRecursion IsPiece pieces.old → AllByRecursion IsPiece pieces.new }
{
    match op {
        Op::Touch { name } => pieces.push(Piece {
            name: name.copy()?,
            offset: 0,
            bytes: Data::new(alloc, &[])?,
        }),
        Op::Write {
            name,
            offset,
            bytes,
        } => pieces.push(Piece {
            name: name.copy()?,
            offset: *offset,
            bytes: bytes.copy()?,
        }),
        _ => Ok(()),
    }
}
