//! Records that wait to be written behind a trail.
ghost use Rattle.std.specs.Prelude.{◌≡◌, ◌+◌, ◌-◌, ◌≤◌, length, vec_len};
ghost use Rattle.sea_trail.specs.Trail.{first_block as first, segment_end as end_of, trail_link};
ghost use Rattle.sea_journal.specs.Link.{IsLink};
ghost use Rattle.sea_journal.specs.Padding.{padded};

use crate::SEGMENT_BLOCKS;
use crate::put::put_blocks;
use crate::roll::Roll;
use sea_base::{BLOCK_BYTES, Commit, Digest, NoMemory, Paddr, Root, Tail, put_bytes};
use sea_device::{Device, Failed};
use sea_record::{Body, Kind, Record, digest_in, encode, size};
use sea_trail::{Link, Trail, first_block, header_block};
use std::alloc::Global;

/// Records that wait to be written in the open segment.
#[derive(Debug, Drop)]
pub struct Queue {
    /// The open segment.
    pub active: u32,
    /// Its sequence number.
    pub seq: u64,
    /// The block where the first of them goes.
    pub start: Paddr,
    /// The block behind the last.
    pub place: Paddr,
    /// What the last of them hands on.
    pub link: Link,
    /// Their blocks, and behind some a block of zeros.
    pub bytes: Vec<u8>,
    /// How many there are.
    pub count: u32,
    ghost few: { active ≤ 8190 },
    ghost from: { first active ≤ start.0 },
    ghost order: { start.0 ≤ place.0 },
    ghost within: { place.0 ≤ end_of active },
    ghost padded: { vec_len bytes ≡ padded (place.0 - start.0) },
    ghost counted: { count ≤ place.0 - start.0 },
    ghost linked: { IsLink link },
}

impl Queue {
    ghost use Rattle.std.specs.Prelude.{List, ℕ, ◌*◌, ◌<◌, IfOk, MatchOption, OnOk, OnErr};
    ghost use Rattle.sea_device.specs.Device.{Torn};
    ghost use Rattle.sea_record.specs.Record.{IsRecord, blocks};
    ghost use Rattle.sea_journal.specs.Blocks.{IsQueued, queued_block};
    ghost use Rattle.sea_journal.specs.Changes.{ChangesBy, CountsFaults};
    ghost use Rattle.sea_journal.specs.Log.{Log, pushed};
    ghost use Rattle.sea_journal.specs.Queue.{Waits, BeginsBehind, IsEmptied, IsWritten, batch};
    ghost use Rattle.sea_journal.specs.Resume.{HasFields, HasNumbers, opened, record_behind};
    ghost use Rattle.sea_journal.specs.Rolls.{BeginsAt};

    /// None waits behind a trail.
    pub fn behind(alloc: Global, trail: &Trail) -> Queue
        requires few { trail.now.active ≤ 8190 }
        requires from { first trail.now.active ≤ trail.now.end.0 }
        requires within { trail.now.end.0 ≤ end_of trail.now.active }
        requires numbers { HasNumbers trail.now }
        requires fields { HasFields trail.now }
        ensures waits { (image : List ℕ) → Waits (opened image trail.now) result }
        ensures begins { BeginsBehind trail.now result }
    {
        Queue {
            active: trail.active,
            seq: trail.seq,
            start: trail.end,
            place: trail.end,
            link: link_of(trail),
            bytes: Vec::new(alloc),
            count: 0,
        }
    }

    /// Goes on behind the header of a segment that is open now, with nothing.
    pub fn open(&mut self, roll: &Roll)
        requires { roll.now.header.segment ≤ 8190 }
        ensures { BeginsAt roll.now.header self.new }
    {
        let first = Paddr(first_block(roll.header.segment));
        self.bytes.clear();
        self.active = roll.header.segment;
        self.seq = roll.header.seq;
        self.start = first;
        self.place = first;
        self.link = roll.link();
        self.count = 0;
    }

    /// How many blocks of the open segment are left.
    pub fn rest(&self) -> u32
        ensures { result + self.now.place.0 ≡ end_of self.now.active }
    {
        header_block(self.active) + SEGMENT_BLOCKS - self.place.0
    }

    /// Adds the record with this body.
    pub fn push(&mut self, body: Body, tail: Tail, root: Root) -> Result<Commit, NoMemory>
        requires is_record { IsRecord
            (record_behind self.old.place.0 self.old.seq self.old.link body tail root) }
        requires room { self.old.place.0 + blocks body ≤ end_of self.old.active }
        ensures ok { (log : Log) → Waits log self.old → OnOk result (Waits (pushed log
            (record_behind self.old.place.0 self.old.seq self.old.link body tail root)) self.new) }
        ensures err { (log : Log) → Waits log self.old → OnErr result (Waits log self.new) }
        ensures active { self.new.active ≡ self.old.active }
        ensures commit { IfOk result (λ commit. commit.0 ≡ self.old.link.commit.0 + 1) }
    {
        let alloc = *self.bytes.allocator();
        let entry = self.next_record(body, tail, root);
        let spelled = encode(alloc, &entry)?;
        let at = self.record_bytes();
        let len = at + spelled.len() + BLOCK_BYTES;
        self.bytes.resize(len, 0)?;
        put_bytes(&mut self.bytes, at, spelled.bytes());
        self.place = Paddr(self.place.0 + size(&entry.body));
        self.link = Link {
            mount: entry.mount,
            commit: entry.commit,
            digest: digest_in(spelled.bytes()),
            tail,
            root,
        };
        self.count += 1;
        Ok(entry.commit)
    }

    // The record with this body that goes on behind the last.
    fn next_record(&self, body: Body, tail: Tail, root: Root) -> Record
        requires { IsRecord
            (record_behind self.now.place.0 self.now.seq self.now.link body tail root) }
        ensures { result
            ≡ record_behind self.now.place.0 self.now.seq self.now.link body tail root }
    {
        let opened = body.kind == Kind::Mount;
        Record {
            mount: self.link.mount + opened as u64,
            seq: self.seq,
            place: self.place,
            commit: Commit(self.link.commit.0 + 1),
            tail,
            root,
            prev: self.link.digest,
            body,
        }
    }

    // How many bytes the records take.
    fn record_bytes(&self) -> usize
        ensures { result ≡ 4096 * (self.now.place.0 - self.now.start.0) }
    {
        (self.place.0 - self.start.0) as usize * BLOCK_BYTES
    }

    /// Writes the records and a block of zeros behind them, or without it where they reach the end
    /// of the segment, and syncs. With none it makes no call.
    pub fn write<D: Device>(&mut self, device: &mut D) -> Result<(), Failed>
        requires { end_of self.old.active ≤ D.size device.old }
        ensures idle { self.old.place ≡ self.old.start
            → (result ≡ Ok tt) × (self.new ≡ self.old) × (device.new ≡ device.old) }
        ensures written { self.old.start.0 < self.old.place.0
            → OnOk result (IsWritten D.Device self.old device.old device.new) }
        ensures emptied { OnOk result (IsEmptied self.old self.new) }
        ensures err { OnErr result (self.new ≡ self.old) }
        ensures changes { ChangesBy (Torn (4096 * self.old.start.0)
            (4096 * (end_of self.old.active - self.old.start.0))) D.Device device.old device.new }
        ensures cause { CountsFaults (D.faults device.old) (D.faults device.new) result }
    {
        if self.place == self.start {
            return Ok(());
        }
        put_blocks(device, self.start, self.batch())?;
        self.bytes.clear();
        self.start = self.place;
        self.count = 0;
        Ok(())
    }

    /// The block at a place, where a queued record covers it.
    pub fn block(&self, at: Paddr) -> Option<&[u8]>
        ensures { MatchOption result (IsQueued self.now at.0 → ⊥) (λ block.
            IsQueued self.now at.0 × (block.now ≡ queued_block self.now at.0)
            × (length block.now ≡ 4096)) }
    {
        if at.0 < self.start.0 || at.0 >= self.place.0 {
            return None;
        }
        let from = BLOCK_BYTES * (at.0 - self.start.0) as usize;
        Some(&self.bytes[from..from + BLOCK_BYTES])
    }

    // What is written at once.
    fn batch(&self) -> &[u8]
        requires { self.now.start.0 < self.now.place.0 }
        ensures is { result.now ≡ batch self.now }
        ensures within { 4096 * self.now.start.0 + length result.now
            ≤ 4096 * end_of self.now.active }
    {
        let end = if self.rest() == 0 {
            self.record_bytes()
        } else {
            self.bytes.len()
        };
        &self.bytes[..end]
    }
}

// What the last record or header of a trail hands on.
fn link_of(trail: &Trail) -> Link
    ensures is { result ≡ trail_link trail.now }
    ensures digest { length result.digest.0 ≡ 32 }
{
    Link {
        mount: trail.mount,
        commit: trail.commit,
        digest: whole(trail.last),
        tail: trail.tail,
        root: trail.root,
    }
}

// The digest, of which proofs learn here that it has 32 bytes.
fn whole(digest: Digest) -> Digest
    ensures is { result ≡ digest }
    ensures len { length result.0 ≡ 32 }
{
    digest
}
