//! Records that wait to be written behind a trail.
ghost use Rattle.std.specs.Prelude.{◌≡◌, ℕ, ◌+◌, ◌*◌, ◌%◌, ◌^◌, ◌<◌, ◌≤◌, vec_len, length};

use crate::batch::write_behind;
use crate::{Pieces, PlainRecord, Refusal, push_record};
use sea_base::{Commit, Digest, NoMemory, Paddr};
use sea_device::Device;
use std::alloc::Global;

/// Plain records that wait to be written, the first of them at a block of the device.
#[derive(Debug, Drop)]
pub struct Queue {
    pub place: Paddr,
    /// The number of the next record.
    pub commit: Commit,
    /// The digest of the last record.
    pub previous: Digest,
    /// The records' blocks.
    pub bytes: Vec<u8>,
    /// The blocks of the device that are left behind them.
    pub rest: u32,
    ghost digest: { length previous.0 ≡ 32 },
    ghost whole: { vec_len bytes % 4096 ≡ 0 },
    ghost counted: { 1 ≤ commit.0 },
    ghost few: { 4096 * commit.0 ≤ 4096 * place.0 + vec_len bytes + 4096 },
    ghost room: { 4096 * place.0 + vec_len bytes + 4096 * rest < 2 ^ 44 },
}

impl Queue {
    ghost use Rattle.std.specs.Prelude.{List, [], ◌∷◌, ◌++◌, OnOk, OnErr, IsOk, Some};
    ghost use Rattle.std.specs.List.{AllByRecursion};
    ghost use Rattle.sea_top.specs.declared.record.PlainRecord.{PlainRecord};
    ghost use Rattle.sea_top.specs.Record.{IsPiece, blocks_of};
    ghost use Rattle.sea_top.specs.Trail.{IsTrail};
    ghost use Rattle.sea_top.specs.Queue.{Start, Waits, Keeps, behind};
    ghost use Rattle.sea_top.specs.Crash.{ChangesBehind};
    ghost use Rattle.sea_top.specs.Input.{Fails};

    /// No record waits.
    pub fn new(alloc: Global, place: Paddr, commit: Commit, previous: Digest, rest: u32) -> Queue
        requires counted { (1 ≤ commit.0) × (commit.0 ≤ place.0 + 1) }
        requires digest { length previous.0 ≡ 32 }
        requires room { place.0 + rest < 2 ^ 32 }
        ensures { (start : Start) → place.0 ≡ start.place → commit.0 ≡ start.commit → previous.0 ≡ start.previous
            → place.0 + rest ≡ start.size → Waits start result [] }
    {
        Queue {
            place,
            commit,
            previous,
            bytes: Vec::new(alloc),
            rest,
        }
    }

    /// Adds the record of these pieces, which takes `need` blocks.
    pub fn push(&mut self, pieces: Pieces, need: u32) -> Result<(), NoMemory>
        requires some { 1 ≤ length pieces }
        requires pieces { AllByRecursion IsPiece pieces }
        requires need { need ≡ blocks_of pieces }
        requires short { need ≤ 1024 }
        requires room { need ≤ self.old.rest }
        ensures ok { (start : Start) (news : List PlainRecord) → Waits start self.old news
            → OnOk result ((plain : PlainRecord) × (plain.pieces ≡ pieces) × Waits start self.new (news ++ plain ∷ [])) }
        ensures place { self.new.place ≡ self.old.place }
        ensures rest { OnOk result (self.new.rest + need ≡ self.old.rest) }
        ensures err { (start : Start) (news : List PlainRecord) → Waits start self.old news → OnErr result (Waits start self.new news) }
    {
        let plain = PlainRecord {
            commit: self.commit,
            previous: self.previous,
            pieces,
        };
        let digest = push_record(&mut self.bytes, &plain)?;
        self.commit = Commit(self.commit.0 + 1);
        self.previous = digest;
        self.rest -= need;
        Ok(())
    }

    /// Writes the records behind the trail, with a block of zeros behind them where the device goes on,
    /// and syncs. Where no record waits it makes no call.
    pub fn write<D: Device>(self, device: &mut D) -> Result<(), Refusal>
        requires { 4096 * self.place.0 + vec_len self.bytes + 4096 * self.rest ≤ 4096 * D.size device.old }
        ensures kept { (image : List ℕ) (records news : List PlainRecord) → D.contents device.old ≡ Some image
            → IsTrail image records → ((c : List ℕ) → D.may_leave device.old c → c ≡ image)
            → Waits (behind records (D.size device.old)) self news
            → OnOk result (Keeps (records ++ news) (D.contents device.new) (D.may_leave device.new)) }
        // A crash keeps what stands before the records.
        ensures behind { ChangesBehind (4096 * self.place.0) D.Device device.old device.new }
        ensures size { D.size device.new ≡ D.size device.old }
        ensures cause { Fails (D.faults device.old) (D.faults device.new) Refusal.DeviceFault result }
    {
        if self.bytes.is_empty() {
            return Ok(());
        }
        write_behind(device, self.place, self.bytes, self.rest)
    }
}
