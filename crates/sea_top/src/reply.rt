//! Answering one request.
ghost use Rattle.std.specs.Prelude.{◌≡◌, ◌++◌, List, map, IfOk};
ghost use Rattle.sea_top.specs.declared.record.PlainRecord.{PlainRecord};
ghost use Rattle.sea_top.specs.Crash.{log_of};
ghost use Rattle.sea_top.specs.History.{IsReply, after_reply};
ghost use Rattle.sea_top.specs.Pieces.{need_of};
ghost use Rattle.sea_top.specs.Room.{HasRoom, rest_after};
ghost use Rattle.sea_top.specs.Trail.{after_pieces, pieces_of};
ghost use Rattle.sea_top.specs.Queue.{Start, Waits};

use crate::queue::Queue;
use crate::record_blocks;
use crate::request_pieces::pieces_asked;
use sea_base::NoMemory;
use sea_plain::{Objects, Reply, Request};
use std::alloc::Global;

/// Answers a request over the objects, and queues its record where it has one.
pub fn reply_to(
    alloc: Global,
    objects: &mut Objects,
    queue: &mut Queue,
    request: &Request,
) -> Result<Reply, NoMemory>
    ensures reply { IfOk result (λ reply. IsReply reply request.now objects.old) }
    ensures objects { IfOk result (λ reply. objects.new ≡ after_reply reply request.now objects.old) }
    ensures room { IfOk result (λ reply. HasRoom reply (need_of request.now) queue.old.rest) }
    ensures rest { IfOk result (λ reply. queue.new.rest ≡ rest_after reply (need_of request.now) queue.old.rest) }
    ensures queued { (start : Start) (news : List PlainRecord) → Waits start queue.old news
        → IfOk result (λ reply. (more : List PlainRecord) × Waits start queue.new (news ++ more)
        × (objects.new ≡ after_pieces (pieces_of more) objects.old)
        × (map (λ plain. plain.pieces) more ≡ log_of reply request.now)) }
    ensures place { queue.new.place ≡ queue.old.place }
{
    let pieces = pieces_asked(alloc, request.ops())?;
    if pieces.items().is_empty() {
        return objects.apply(request);
    }
    let need = record_blocks(pieces.items());
    let rest = queue.rest;
    if need > rest {
        return Ok(Reply::Full {
            need,
            rest,
            empty: 0,
        });
    }
    let reply = objects.apply(request)?;
    queue.push(pieces, need)?;
    Ok(reply)
}
