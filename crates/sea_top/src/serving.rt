//! Serving a plan over the objects.
ghost use Rattle.std.specs.Prelude.{◌≡◌, ◌≤◌, List, [], length, OnOk, IsOk};
ghost use Rattle.sea_plain.specs.Objects.{ObjectMap};
ghost use Rattle.sea_top.specs.Crash.{IsLog};
ghost use Rattle.sea_top.specs.Queue.{Start, Waits};
ghost use Rattle.sea_top.specs.Trail.{Linked};
ghost use Rattle.sea_top.specs.declared.record.PlainRecord.{PlainRecord};
ghost use Rattle.sea_top.specs.Serving.{AsksFirst, Served, Queues};

use crate::queue::Queue;
use crate::reply::reply_to;
use sea_base::{NoMemory, Sequence};
use sea_plain::Objects;
use sea_plain_script::{Asked, Entry};
use std::alloc::Global;

/// Answers the requests of client 1 in order, enters each reply, and queues each record. After want of
/// memory the entries so far stand.
pub fn serve_all(
    alloc: Global,
    objects: &mut Objects,
    queue: &mut Queue,
    entries: &mut Sequence<Entry>,
    plan: &[Asked],
) -> Result<(), NoMemory>
    requires first { AsksFirst plan.now }
    requires few { length plan.now ≤ 10000 }
    requires none { entries.old ≡ [] }
    ensures entries { (last : ObjectMap) × (left : _) × Served plan.now objects.old last queue.old.rest left entries.new }
    ensures all { OnOk result (Served plan.now objects.old objects.new queue.old.rest queue.new.rest entries.new
        × (length entries.new ≡ length plan.now)) }
    ensures queued { OnOk result (Queues objects.old objects.new queue.old queue.new) }
    ensures logged { (start : Start) → Waits start queue.old [] → (news : List PlainRecord)
        × Linked start.commit start.previous news × IsLog plan.now objects.old entries.new news }
    ensures place { queue.new.place ≡ queue.old.place }
{
    for asked in plan {
        let number = entries.items().len() as u32 + 1;
        let reply = reply_to(alloc, objects, queue, &asked.request)?;
        entries.push(Entry {
            client: asked.client,
            number,
            reply,
        })?;
    }
    Ok(())
}
