//! The journal of a store over a device.
ghost use Rattle.std.specs.Prelude.{◌≡◌, ◌<◌, ◌≤◌, length, IfOk, IfSome};
ghost use Rattle.std.proofs.Props.{props};
ghost use Rattle.sea_trail.specs.Trail.{blocks_needed, segment_end as end_of};
ghost use Rattle.sea_journal.specs.Resume.{mount_body};

use crate::SEGMENT_BLOCKS;
use crate::put::put_blocks;
use crate::queue::Queue;
use crate::roll::Roll;
use crate::room::{Who, takes};
use sea_base::{
    BLOCK_BYTES, Block, Commit, Data, NoMemory, Paddr, Root, Sequence, SpaceFault, Sum, Tail,
    sum_of,
};
use sea_device::{Device, Failed};
use sea_record::{Body, Kind};
use sea_segment::{SegState, Table};
use sea_trail::{Trail, header_block};
use std::alloc::Global;
use thiserror::Error;

/// Why a journal did not begin.
#[derive(Clone, Copy, Debug, PartialEq, Eq, Error)]
pub enum ResumeFault {
    /// Memory ran out.
    #[error("no memory")]
    NoMemory,
    /// A call of the device failed.
    #[error("device fault")]
    DeviceFault,
    /// The open segment has no block left for the mount record, and no segment is empty.
    #[error("no space")]
    NoSpace,
}

impl From<NoMemory> for ResumeFault {
    ghost use Rattle.sea_journal.specs.declared.journal.ResumeFault.TheVariants.{NoMemory};

    ghost from_gives = { λ _ fault. fault ≡ NoMemory };

    fn from(_: NoMemory) -> Self {
        ResumeFault::NoMemory
    }
}

impl From<Failed> for ResumeFault {
    ghost use Rattle.sea_journal.specs.declared.journal.ResumeFault.TheVariants.{DeviceFault};

    ghost from_gives = { λ _ fault. fault ≡ DeviceFault };

    fn from(_: Failed) -> Self {
        ResumeFault::DeviceFault
    }
}

impl From<ReserveFault> for ResumeFault {
    ghost use Rattle.sea_journal.specs.Opening.{resume_fault};

    ghost from_gives = { λ fault made. made ≡ resume_fault fault };

    fn from(fault: ReserveFault) -> Self {
        match fault {
            ReserveFault::NoRoom { .. } => ResumeFault::NoSpace,
            ReserveFault::DeviceFault => ResumeFault::DeviceFault,
            ReserveFault::NoMemory => ResumeFault::NoMemory,
        }
    }
}

/// Why no place was reserved.
#[derive(Clone, Copy, Debug, PartialEq, Eq, Error)]
pub enum ReserveFault {
    /// The rule of room takes no record of so many blocks.
    #[error("no room for {need} blocks: {rest} left, {empty} segments empty")]
    NoRoom { need: u32, rest: u32, empty: u32 },
    /// A call of the device failed.
    #[error("device fault")]
    DeviceFault,
    /// Memory ran out.
    #[error("no memory")]
    NoMemory,
}

// How many blocks a mount record takes.
const MOUNT_BLOCKS: u32 = 1;

/// A journal: records go one behind the other into the open segment of a device. `reserve` finds
/// room for the next one, `push` queues it, and `sync` writes what is queued and makes it stable.
#[derive(Debug, Drop)]
pub struct Journal<D: Device> {
    device: D,
    table: Table,
    queue: Queue,
    // The header of a segment that is being opened.
    roll: Option<Roll>,
    ghost room: { end_of queue.active ≤ D.size device },
    ghost few: { length table ≤ 8191 },
    ghost fits: { blocks_needed (length table) ≤ D.size device },
    ghost open: { queue.active < length table },
    ghost next: { IfSome roll (λ r. r.header.segment < length table) } by { Prim.hlevel props },
}

impl<D: Device> Journal<D> {
    ghost use Rattle.std.specs.Prelude.{ℕ, ◌+◌, ◌-◌, ◌*◌, ◌^◌, List, [], Some, None, IfErr, IsOk, OnOk, OnErr, MatchResult};
    ghost use Rattle.sea_device.specs.Device.{Torn};
    ghost use Rattle.sea_base.specs.Faults.{FaultsRose};
    ghost use Rattle.sea_record.specs.Record.{IsRecord, blocks};
    ghost use Rattle.sea_segment.specs.State.{IsClosedBefore};
    ghost use Rattle.sea_segment.specs.Table.{IsEmpty, IsLeastEmpty, empty_of, live_of, state_of, with_live, with_state};
    ghost use Rattle.sea_segment.specs.declared.state.SegState.TheVariants.{Empty};
    ghost use Rattle.sea_trail.specs.Trail.{IsTrail, block_of, first_block as first, header_block as header_of};
    ghost use Rattle.sea_device.specs.Calls.{OnlyRead};
    ghost use Rattle.sea_journal.specs.Blocks.{IsNotGiven, IsSumOf, IsUnread, image_now};
    ghost use Rattle.sea_journal.specs.Changes.{ChangesBy, CountsFaults};
    ghost use Rattle.sea_journal.specs.Journal.{HasLog, CrashesKeep};
    ghost use Rattle.sea_journal.specs.Log.{Log, HasNoneAt, IsClear, IsSynced, NamesTail, pushed};
    ghost use Rattle.sea_journal.specs.Reserve.{Begins, ComesTo, IsFinishedBy, IsReady, IsRollFault, IsSame, IsUnready, Keeps, Rolls, TakesIn};
    ghost use Rattle.sea_journal.specs.Opening.{HasSpace, IsBegun, IsFound, IsNotBegun, KeepsFound, MayMount};
    ghost use Rattle.sea_journal.specs.Resume.{CanResume, opened, record_behind};
    ghost use Rattle.sea_journal.specs.declared.journal.ResumeFault.TheVariants.{NoSpace};
    ghost use Rattle.sea_journal.specs.declared.room.Who.TheVariants.{Mount};
    ghost use Rattle.sea_journal.specs.Rolls.{BeginsAt, InTable, rest_of, seq_of};

    /// Goes on behind the trail of a device, which was synced before it was read: writes a mount
    /// record and syncs it. Where the open segment is full it opens the least empty one first.
    /// Where it fails it hands the device back.
    pub fn resume(
        alloc: Global,
        device: D,
        trail: &Trail,
        table: Table,
    ) -> Result<Journal<D>, (D, ResumeFault)>
        requires can { CanResume trail.now (D.size device) }
        requires table { length table ≡ trail.now.segments }
        ensures begun { (image : List ℕ) → IsFound D.Device image trail.now table device
            → IfOk result (IsBegun D.Device (opened image trail.now) table) }
        // A clear image of a crash within the call has the trail that was found, then the header of
        // a segment where one was opened, and then the mount record, or a prefix of these.
        ensures crash { (image : List ℕ) → IsFound D.Device image trail.now table device
            → MatchResult result
            (λ j. KeepsFound D.Device (opened image trail.now) table device j.device)
            (λ e. KeepsFound D.Device (opened image trail.now) table device e.0) }
        ensures cause { MatchResult result
            (λ j. HasSpace trail.now table × (D.faults j.device ≡ D.faults device))
            (λ e. IsNotBegun (HasSpace trail.now table) (D.faults device) (D.faults e.0) e.1) }
        ensures untouched { IfErr result (λ e. e.1 ≡ NoSpace → e.0 ≡ device) }
    {
        let queue = Queue::behind(alloc, trail);
        let mut journal = Journal {
            device,
            table,
            queue,
            roll: None,
        };
        match journal.add_mount(alloc) {
            Ok(()) => Ok(journal),
            Err(fault) => Err((journal.close(), fault)),
        }
    }

    // Adds a mount record behind a trail, and makes it stable.
    fn add_mount(&mut self, alloc: Global) -> Result<(), ResumeFault>
        requires ready { self.old.roll ≡ None }
        requires numbers { MayMount self.old.queue }
        ensures begun { (log : Log) → HasLog D.Device log self.old → log.queued ≡ []
            → OnOk result (IsBegun D.Device log self.old.table self.new) }
        ensures crash { (log : Log) → HasLog D.Device log self.old → log.queued ≡ []
            → KeepsFound D.Device log self.old.table self.old.device self.new.device }
        ensures cause { MatchResult result
            (λ _. TakesIn Mount 1 self.old × (D.faults self.new.device ≡ D.faults self.old.device))
            (IsNotBegun (TakesIn Mount 1 self.old) (D.faults self.old.device)
            (D.faults self.new.device)) }
        ensures untouched { IfErr result (λ e. e ≡ NoSpace → self.new.device ≡ self.old.device) }
    {
        self.reserve(MOUNT_BLOCKS, Who::Mount)?;
        let body = mount_body(alloc)?;
        self.push(body, self.queue.link.tail, self.queue.link.root)?;
        self.sync()?;
        Ok(())
    }

    /// How many blocks of the open segment are left.
    pub fn rest(&self) -> u32
        ensures { result ≡ rest_of self.now.roll self.now.queue }
    {
        match &self.roll {
            Some(_) => SEGMENT_BLOCKS - 1,
            None => self.queue.rest(),
        }
    }

    /// The place of the next record, which has at most so many blocks. Where they don't fit it
    /// syncs what is queued, and opens the least empty segment. That a call of the device failed in
    /// has begun, and is finished by the next call.
    pub fn reserve(&mut self, need: u32, who: Who) -> Result<Paddr, ReserveFault>
        requires need { need ≤ 1024 }
        requires number { seq_of self.old.roll self.old.queue < 2 ^ 62 + 2 ^ 49 }
        ensures log { (log : Log) → HasLog D.Device log self.old
            → (next : Log) × ComesTo D.Device self.old self.new log next }
        ensures place { IfOk result (λ at. IsReady need at.0 self.old self.new) }
        ensures taken { IfOk result (λ _. TakesIn who need self.old
            × (D.faults self.new.device ≡ D.faults self.old.device)) }
        ensures fault { IfErr result (IsUnready who need (D.faults self.old.device)
            (D.faults self.new.device) self.old self.new) }
    {
        if self.finish().is_err() {
            return Err(ReserveFault::DeviceFault);
        }
        let rest = self.queue.rest();
        let empty = self.table.empty();
        if !takes(who, need, rest, empty) {
            return Err(ReserveFault::NoRoom { need, rest, empty });
        }
        if need <= rest {
            return Ok(self.queue.place);
        }
        let Some(segment) = self.table.pick_empty() else {
            return Err(ReserveFault::NoRoom { need, rest, empty });
        };
        self.roll(segment)?;
        Ok(self.queue.place)
    }

    // Makes stable what is queued, and opens this segment behind it.
    fn roll(&mut self, segment: u32) -> Result<(), ReserveFault>
        requires none { self.old.roll ≡ None }
        requires some { first self.old.queue.active < self.old.queue.place.0 }
        requires least { IsLeastEmpty self.old.table segment }
        requires number { self.old.queue.seq < 2 ^ 62 + 2 ^ 49 }
        ensures log { (log : Log) → HasLog D.Device log self.old
            → (next : Log) × ComesTo D.Device self.old self.new log next }
        ensures opened { OnOk result ((self.new.roll ≡ None) × Rolls self.old self.new) }
        ensures fault { MatchResult result
            (λ _. D.faults self.new.device ≡ D.faults self.old.device)
            (IsRollFault (D.faults self.old.device) (D.faults self.new.device)) }
    {
        if self.sync().is_err() {
            return Err(ReserveFault::DeviceFault);
        }
        if self.begin(segment).is_err() {
            return Err(ReserveFault::NoMemory);
        }
        if self.finish().is_err() {
            return Err(ReserveFault::DeviceFault);
        }
        Ok(())
    }

    // Begins to open this segment, of which nothing is written yet.
    fn begin(&mut self, segment: u32) -> Result<(), NoMemory>
        requires none { self.old.roll ≡ None }
        requires empty { IsEmpty self.old.table segment }
        requires number { self.old.queue.seq < 2 ^ 62 + 2 ^ 49 }
        ensures ok { OnOk result (Begins segment self.old self.new) }
        ensures err { OnErr result (self.new ≡ self.old) }
        ensures device { self.new.device ≡ self.old.device }
        ensures queue { self.new.queue ≡ self.old.queue }
    {
        let alloc = *self.queue.bytes.allocator();
        let roll = Roll::new(alloc, segment, self.queue.seq, &self.queue.link)?;
        let closed = SegState::Closed {
            seq: self.queue.seq,
        };
        self.table.set(self.queue.active, closed);
        let seq = roll.header.seq;
        self.table.set(segment, SegState::Active { seq });
        self.roll = Some(roll);
        Ok(())
    }

    // Writes the header of the segment that is being opened and syncs it; then records go on there.
    fn finish(&mut self) -> Result<(), Failed>
        ensures idle { self.old.roll ≡ None → (result ≡ Ok tt) × IsSame self.old self.new }
        ensures opened { OnOk result ((self.new.roll ≡ None)
            × IfSome self.old.roll (λ roll. BeginsAt roll.header self.new.queue)) }
        ensures ok { (log : Log) → HasLog D.Device log self.old → OnOk result ((next : Log)
            × HasLog D.Device next self.new × IsFinishedBy self.old.roll log next) }
        ensures err { (log : Log) → HasLog D.Device log self.old
            → OnErr result (HasLog D.Device log self.new) }
        ensures table { self.new.table ≡ self.old.table }
        ensures changes { IfSome self.old.roll (λ roll. ChangesBy
            (Torn (4096 * header_of roll.header.segment) 4096) D.Device
            self.old.device self.new.device) }
        ensures cause { CountsFaults (D.faults self.old.device) (D.faults self.new.device) result }
    {
        let Some(roll) = &self.roll else {
            return Ok(());
        };
        let at = Paddr(header_block(roll.header.segment));
        put_blocks(&mut self.device, at, roll.block.bytes())?;
        self.queue.open(roll);
        self.roll = None;
        Ok(())
    }

    /// Queues the record with this body at the reserved place, and answers its number.
    pub fn push(&mut self, body: Body, tail: Tail, root: Root) -> Result<Commit, NoMemory>
        requires ready { self.old.roll ≡ None }
        requires is_record { IsRecord (record_behind self.old.queue.place.0 self.old.queue.seq
            self.old.queue.link body tail root) }
        requires room { self.old.queue.place.0 + blocks body ≤ end_of self.old.queue.active }
        ensures ok { (log : Log) → HasLog D.Device log self.old → NamesTail log tail
            → OnOk result (HasLog D.Device (pushed log (record_behind self.old.queue.place.0
            self.old.queue.seq self.old.queue.link body tail root)) self.new) }
        ensures err { (log : Log) → HasLog D.Device log self.old
            → OnErr result (HasLog D.Device log self.new) }
        ensures others { (self.new.device ≡ self.old.device) × (self.new.table ≡ self.old.table)
            × (self.new.roll ≡ self.old.roll) }
        ensures commit { IfOk result (λ commit. commit.0 ≡ self.old.queue.link.commit.0 + 1) }
    {
        self.queue.push(body, tail, root)
    }

    /// Writes what is queued, and syncs. With an empty queue it makes no call of the device. After
    /// a fault the queue stays.
    pub fn sync(&mut self) -> Result<(), Failed>
        ensures idle { self.old.queue.place ≡ self.old.queue.start
            → (result ≡ Ok tt) × IsSame self.old self.new }
        ensures ok { (log : Log) → HasLog D.Device log self.old → OnOk result
            ((new : Log) × HasLog D.Device new self.new × IsSynced log new) }
        ensures err { (log : Log) → HasLog D.Device log self.old
            → OnErr result (HasLog D.Device log self.new) }
        // At each moment of the call a clear image has what was stable, and then a prefix.
        ensures crash { (log : Log) → HasLog D.Device log self.old
            → CrashesKeep D.Device log self.old.device self.new.device }
        ensures changes { ChangesBy (Torn (4096 * self.old.queue.start.0)
            (4096 * (end_of self.old.queue.active - self.old.queue.start.0))) D.Device
            self.old.device self.new.device }
        ensures cause { CountsFaults (D.faults self.old.device) (D.faults self.new.device) result }
        ensures keeps { Keeps self.old self.new × OnOk result
            (self.new.queue.start ≡ self.new.queue.place) }
    {
        self.queue.write(&mut self.device)
    }

    /// The block at a place, from the queue where a queued record covers it, else from the device.
    /// It is damaged where its sum isn't the one that was kept of it.
    pub fn block(&mut self, at: Paddr, sum: Sum) -> Result<Block, SpaceFault>
        requires { at.0 < D.size self.old.device }
        ensures block { IfOk result (λ block. IfSome (D.contents self.old.device) (λ image.
            block ≡ block_of (image_now self.old.queue image) at.0)) }
        ensures sum { IfOk result (IsSumOf sum.0) }
        ensures fault { IfErr result (IsNotGiven self.old.queue (D.contents self.old.device) at.0
            sum.0 (D.faults self.old.device) (D.faults self.new.device)) }
        ensures read { OnlyRead D.Device self.old.device self.new.device }
        ensures others { (self.new.queue ≡ self.old.queue) × (self.new.table ≡ self.old.table)
            × (self.new.roll ≡ self.old.roll) }
        ensures log { (log : Log) → HasLog D.Device log self.old → HasLog D.Device log self.new }
    {
        let block = self.read(at)?;
        let found = sum_of(&block);
        if found != sum {
            return Err(SpaceFault::Damaged {
                block: at,
                kept: sum,
                found,
            });
        }
        Ok(block)
    }

    // The block at a place, whatever its sum.
    fn read(&mut self, at: Paddr) -> Result<Block, SpaceFault>
        requires { at.0 < D.size self.old.device }
        ensures block { IfOk result (λ block. IfSome (D.contents self.old.device) (λ image.
            block ≡ block_of (image_now self.old.queue image) at.0)) }
        ensures fault { IfErr result (IsUnread (D.faults self.old.device) (D.faults self.new.device)) }
        ensures still { IsOk result → D.faults self.new.device ≡ D.faults self.old.device }
        ensures read { OnlyRead D.Device self.old.device self.new.device }
        ensures others { (self.new.queue ≡ self.old.queue) × (self.new.table ≡ self.old.table)
            × (self.new.roll ≡ self.old.roll) }
    {
        let alloc = *self.queue.bytes.allocator();
        if let Some(bytes) = self.queue.block(at) {
            return Ok(Block::new(alloc, bytes)?);
        }
        let mut bytes = vec![in alloc; 0; BLOCK_BYTES].map_err(|_| SpaceFault::NoMemory)?;
        if self.device.read(at, &mut bytes).is_err() {
            return Err(SpaceFault::DeviceFault);
        }
        Ok(Block::from_vec(bytes)?)
    }

    /// How many segments are empty.
    pub fn empty(&self) -> u32
        ensures { result ≡ empty_of self.now.table }
    {
        self.table.empty()
    }

    /// How many records are queued.
    pub fn unsynced(&self) -> u32
        ensures exact { result ≡ self.now.queue.count }
        ensures log { (log : Log) → HasLog D.Device log self.now → result ≡ length log.queued }
    {
        self.queue.count
    }

    /// The states of the segments, and how many of their blocks are live.
    pub fn table(&self) -> &Table
        ensures { result.now ≡ self.now.table }
    {
        &self.table
    }

    /// The number of the last record, a queued one too.
    pub fn commit(&self) -> Commit
        ensures { result ≡ self.now.queue.link.commit }
    {
        self.queue.link.commit
    }

    /// The tail of the last record, a queued one too.
    pub fn tail(&self) -> Tail
        ensures { result ≡ self.now.queue.link.tail }
    {
        self.queue.link.tail
    }

    /// The mount number of the last record, a queued one too.
    pub fn mount(&self) -> u64
        ensures { result ≡ self.now.queue.link.mount }
    {
        self.queue.link.mount
    }

    /// The sequence number of the open segment.
    pub fn seq(&self) -> u64
        ensures { result ≡ seq_of self.now.roll self.now.queue }
    {
        match &self.roll {
            Some(roll) => roll.header.seq,
            None => self.queue.seq,
        }
    }

    /// Counts one more live block of a segment.
    pub fn add_live(&mut self, segment: u32)
        requires within { segment < length self.old.table }
        requires room { live_of self.old.table segment < 2047 }
        ensures table { self.new.table
            ≡ with_live self.old.table segment (live_of self.old.table segment + 1) }
        ensures others { (self.new.queue ≡ self.old.queue) × (self.new.device ≡ self.old.device)
            × (self.new.roll ≡ self.old.roll) }
        ensures log { (log : Log) → HasLog D.Device log self.old → HasLog D.Device log self.new }
    {
        self.table.add_live(segment);
    }

    /// Counts one live block of a segment less.
    pub fn take_live(&mut self, segment: u32)
        requires within { segment < length self.old.table }
        requires some { 0 < live_of self.old.table segment }
        ensures table { self.new.table
            ≡ with_live self.old.table segment (live_of self.old.table segment - 1) }
        ensures others { (self.new.queue ≡ self.old.queue) × (self.new.device ≡ self.old.device)
            × (self.new.roll ≡ self.old.roll) }
        ensures log { (log : Log) → HasLog D.Device log self.old → HasLog D.Device log self.new }
    {
        self.table.take_live(segment);
    }

    /// Makes a segment empty, so that it may be opened again. It is closed, no block of it is live,
    /// its sequence number is below the tail's, and nothing is queued.
    pub fn free(&mut self, segment: u32)
        requires within { segment < length self.old.table }
        requires closed { IsClosedBefore (state_of self.old.table segment)
            self.old.queue.link.tail.seq }
        requires dead { live_of self.old.table segment ≡ 0 }
        requires idle { self.old.queue.place.0 ≡ self.old.queue.start.0 }
        ensures table { self.new.table ≡ with_state self.old.table segment Empty }
        ensures others { (self.new.queue ≡ self.old.queue) × (self.new.device ≡ self.old.device)
            × (self.new.roll ≡ self.old.roll) }
        ensures log { (log : Log) → HasLog D.Device log self.old → HasLog D.Device log self.new }
        // No clear image that a crash may leave has a segment of its trail there.
        ensures left { (log : Log) → HasLog D.Device log self.old → (c : List ℕ)
            → D.may_leave self.new.device c → IsClear log c → HasNoneAt segment c }
    {
        self.table.set(segment, SegState::Empty);
    }

    /// Hands the device back.
    pub fn close(self) -> D
        ensures { result ≡ self.device }
    {
        let Journal {
            device,
            table: _,
            queue: _,
            roll: _,
        } = self;
        device
    }
}

// The body of a mount record.
fn mount_body(alloc: Global) -> Result<Body, NoMemory>
    ensures { IfOk result (λ body. body ≡ mount_body) }
{
    Ok(Body {
        kind: Kind::Mount,
        placed: Sequence::new(alloc),
        nodes: Sequence::new(alloc),
        dropped: Sequence::new(alloc),
        changes: Sequence::new(alloc),
        plain: Data::from_vec(Vec::new(alloc))?,
    })
}
