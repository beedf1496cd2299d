ghost use Rattle.std.specs.Prelude.{◌≢◌, ◌<◌, ℕ, IfOk, OnOk};
ghost use Rattle.sea_object.specs.Op.{IsWithinLimits};
ghost use Rattle.sea_transactions.specs.Calls.{Keeps};
ghost use Rattle.sea_transactions.specs.State.{HasClient, IsOpen};
ghost use Rattle.sea_pieces.specs.Laying.{IsServed};
ghost use Rattle.sea_pieces.specs.Works.{HasDone, state_of};

use super::*;
use sea_base::{Commit, Data, Laddr, Name};
use sea_object::{Item, Op, Reply};
use sea_sets::Conflict;
use sea_transactions::{Executed, Transactions};
use std::alloc::Global;
use std::test::Fail;

fn piece(alloc: Global, name: &[u8], offset: u32, bytes: &[u8]) -> Result<Piece, Fail> {
    Ok(Piece {
        name: Name::new(alloc, name)?,
        offset,
        bytes: Data::new(alloc, bytes)?,
    })
}

#[test]
fn a_piece_is_spelled(rt: HostRuntime) -> Result<(), Fail> {
    let alloc = rt.alloc();
    let bytes = b"\x01a\0\0\0\x07\0\0\0\x05hello";
    let Some(pieces) = read_pieces(alloc, bytes)? else {
        return Err(Fail::from("no pieces"));
    };
    assert_eq!(rt;
        pieces.items(),
        [piece(alloc, b"a", 7, b"hello")?].as_slice()
    );
    Ok(())
}

fn read(alloc: Global, name: &[u8]) -> Result<Op, Fail>
    ensures { IfOk result (λ op. IsServed op × IsWithinLimits op) }
{
    Ok(Op::Read {
        name: Name::new(alloc, name)?,
        offset: 3,
        length: 9,
    })
}

fn write(alloc: Global, name: &[u8]) -> Result<Op, Fail>
    ensures { IfOk result (λ op. IsServed op × IsWithinLimits op) }
{
    Ok(Op::Write {
        name: Name::new(alloc, name)?,
        offset: 5,
        bytes: Data::new(alloc, b"!")?,
    })
}

#[test]
fn a_transaction_sees_its_own_changes(rt: HostRuntime) -> Result<(), Fail> {
    let alloc = rt.alloc();
    let mut committed = Committed::new(alloc);
    lay(alloc, &mut committed)?;
    let mut transaction = Transaction::new(alloc);
    transaction.exec(&committed, &write(alloc, b"a")?)?;
    transaction.exec(&committed, &read(alloc, b"a")?)?;
    transaction.exec(&committed, &read(alloc, b"b")?)?;
    let [Item::Unit, Item::Bytes(part), Item::Absent] = transaction.items().items() else {
        return Err(Fail::from("other items"));
    };
    assert_eq!(rt; part.bytes(), b"lo!".as_slice());
    assert_eq!(rt; transaction.changes().len(), 1);
    assert_eq!(rt;
        committed.version(&Name::new(alloc, b"a")?),
        Some(Commit(7))
    );
    Ok(())
}

fn lay(alloc: Global, committed: &mut Committed) -> Result<(), Fail> {
    let name = Name::new(alloc, b"a")?;
    let bytes = Data::new(alloc, b"hello")?;
    committed.lay(
        Commit(7),
        &Piece {
            name,
            offset: 0,
            bytes,
        },
    )?;
    Ok(())
}

#[test]
fn each_name_has_an_address_of_its_own(rt: HostRuntime) -> Result<(), Fail> {
    let alloc = rt.alloc();
    let mut addresses = Addresses::new(alloc);
    let first = addresses.meet(&Name::new(alloc, b"a")?)?;
    let second = addresses.meet(&Name::new(alloc, b"b")?)?;
    let again = addresses.meet(&Name::new(alloc, b"a")?)?;
    assert_eq!(rt; [first.0, second.0, again.0], [2, 3, 2]);
    Ok(())
}

// Opens a transaction of a client that writes to an object and reads it.
fn open(alloc: Global, space: &mut Workspace, client: u32) -> Result<(), Fail>
    requires { HasClient (state_of space.old) client }
    ensures open { OnOk result (IsOpen (state_of space.new) client) }
    ensures keeps { OnOk result (Keeps state_of HasDone client space.old space.new) }
{
    let (first, second) = (write(alloc, b"a")?, read(alloc, b"a")?);
    space.begin(client)?;
    let Executed::Done = space.exec(client, &first)? else {
        return Err(Fail::from("refused"));
    };
    space.exec(client, &second)?;
    Ok(())
}

// Commits a client's transaction, and gives the bytes of its change and its reply.
fn commit(space: &mut Workspace, client: u32, number: Commit) -> Result<(Data, Reply), Fail>
    requires open { IsOpen (state_of space.old) client }
    requires later { (state_of space.old).last.0 < number.0 }
    ensures open { (c : ℕ) → c ≢ client → IsOpen (state_of space.old) c →
        OnOk result (IsOpen (state_of space.new) c) }
{
    let None = space.sent_back(client) else {
        return Err(Fail::from("sent back"));
    };
    let change = space.change(client)?;
    space.prepare(client)?;
    Ok((change, space.commit(client, number)))
}

// The bytes that the second operation read.
fn bytes_read(reply: &Reply) -> Result<&[u8], Fail> {
    let Reply::Done(items) = reply else {
        return Err(Fail::from("refused"));
    };
    let [_, Item::Bytes(part)] = items.items() else {
        return Err(Fail::from("other items"));
    };
    Ok(part.bytes())
}

#[test]
fn the_later_of_two_commits_is_sent_back(rt: HostRuntime) -> Result<(), Fail> {
    let alloc = rt.alloc();
    let mut space = Workspace::new(alloc, 2)?;
    open(alloc, &mut space, 1)?;
    open(alloc, &mut space, 2)?;
    let (_, reply) = commit(&mut space, 1, Commit(7))?;
    assert_eq!(rt; bytes_read(&reply)?, b"\0\0!".as_slice());
    assert_eq!(rt;
        space.sent_back(2),
        Some(Conflict {
            at: Laddr(2),
            seen: None,
            current: Some(Commit(7)),
        })
    );
    Ok(())
}

#[test]
fn a_commit_is_replayed(rt: HostRuntime) -> Result<(), Fail> {
    let alloc = rt.alloc();
    let mut space = Workspace::new(alloc, 1)?;
    open(alloc, &mut space, 1)?;
    let (change, _) = commit(&mut space, 1, Commit(7))?;
    let mut replayed = Workspace::new(alloc, 1)?;
    assert!(rt; replayed.replay(Commit(7), change.bytes())?);
    open(alloc, &mut replayed, 1)?;
    assert_eq!(rt; bytes_read(&replayed.end(1))?, b"\0\0!".as_slice());
    Ok(())
}
