ghost use Rattle.std.specs.Prelude.{◌<◌};
ghost use Rattle.sea_sets.specs.Board.{HasClient, IsOpen};

use super::*;
use sea_base::{Commit, Laddr};
use std::test::Fail;

// The next number of a linear congruential generator, and its state after.
fn drawn(state: &mut u64, below: u64) -> u64
    requires { 0 < below }
    ensures { result < below }
{
    *state = state
        .wrapping_mul(6364136223846793005)
        .wrapping_add(1442695040888963407);
    (*state >> 33) % below
}

// One client's reads as a plain list, in no order: an address, the version found, and the one now.
#[derive(Drop)]
struct Plain {
    reads: Vec<(u64, Option<Commit>, Option<Commit>)>,
}

impl Plain {
    fn note(&mut self, at: u64, seen: Option<Commit>) -> Result<(), Fail> {
        if !self.reads.iter().any(|read| read.0 == at) {
            self.reads.push((at, seen, seen))?;
        }
        Ok(())
    }

    fn mark(&mut self, at: u64, version: Option<Commit>) {
        for read in self.reads.iter_mut() {
            if read.0 == at {
                read.2 = version;
            }
        }
    }

    fn conflict(&self) -> Option<Conflict> {
        let mut least: Option<Conflict> = None;
        for (at, seen, current) in &self.reads {
            let before = match least {
                Some(conflict) => *at < conflict.at.0,
                None => true,
            };
            if seen != current && before {
                least = Some(Conflict {
                    at: Laddr(*at),
                    seen: *seen,
                    current: *current,
                });
            }
        }
        least
    }
}

fn version(drawn: u64) -> Option<Commit> {
    if drawn == 0 {
        None
    } else {
        Some(Commit(drawn))
    }
}

// A commit of client 2, or a read of client 1, on the board and in the plain list.
fn step(board: &mut Board, plain: &mut Plain, commit: u64, state: &mut u64) -> Result<(), Fail>
    requires has { HasClient board.old 1 }
    requires is_open { IsOpen board.old 1 }
    ensures has { HasClient board.new 1 }
    ensures is_open { IsOpen board.new 1 }
{
    let at = drawn(state, 6);
    if drawn(state, 3) == 0 {
        let gone = drawn(state, 2) == 0;
        let change = Change {
            at: Laddr(at),
            gone,
        };
        board.mark(2, Commit(commit), &[change]);
        plain.mark(at, change.version(Commit(commit)));
        return Ok(());
    }
    let seen = version(drawn(state, 3));
    board.note_read(1, Laddr(at), seen)?;
    plain.note(at, seen)
}

#[test]
fn a_read_is_overtaken_where_its_version_moved(rt: HostRuntime) -> Result<(), Fail> {
    let alloc = rt.alloc();
    let mut state = 3;
    let mut board = Board::new(alloc, 1)?;
    for _ in 0..60 {
        board.begin(1);
        let mut plain = Plain {
            reads: Vec::new(alloc),
        };
        for commit in 5..30u64 {
            step(&mut board, &mut plain, commit, &mut state)?;
            assert_eq!(rt; board.sent_back(1), plain.conflict());
        }
    }
    Ok(())
}

#[test]
fn a_commit_marks_all_but_the_committer(rt: HostRuntime) -> Result<(), Fail> {
    let alloc = rt.alloc();
    let mut board = Board::new(alloc, 16)?;
    for client in 1..17 {
        board.begin(client);
        board.note_read(client, Laddr(7), None)?;
    }
    board.end(3);
    board.mark(
        2,
        Commit(9),
        &[Change {
            at: Laddr(7),
            gone: false,
        }],
    );
    for client in 1..17 {
        let overtaken = board.sent_back(client).is_some();
        assert_eq!(rt; overtaken, client != 2 && client != 3);
    }
    Ok(())
}

#[test]
fn each_client_notes_5000_reads(rt: HostRuntime) -> Result<(), Fail> {
    let alloc = rt.alloc();
    let mut board = Board::new(alloc, 16)?;
    board.begin(16);
    for at in 0..5000 {
        board.note_read(16, Laddr(at), Some(Commit(1)))?;
    }
    board.mark(
        1,
        Commit(2),
        &[Change {
            at: Laddr(4000),
            gone: true,
        }],
    );
    let conflict = Conflict {
        at: Laddr(4000),
        seen: Some(Commit(1)),
        current: None,
    };
    assert_eq!(rt; board.sent_back(16), Some(conflict));
    Ok(())
}
