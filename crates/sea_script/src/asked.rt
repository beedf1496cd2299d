//! What a line asks for.
ghost use Rattle.std.specs.Prelude.{◌≡◌, ◌≤◌, ◌<◌, ◌^◌, length};
ghost use Rattle.sea_script.specs.Reading.{seen};
ghost use Rattle.sea_script.specs.ReadingLines.{ReadsRequest, why_none};
ghost use Rattle.sea_script.specs.Script.{Given, read_weight, reads_weight};

use crate::ScriptWhy;
use crate::client::client_of;
use crate::fault::LineFault;
use crate::operation::ops;
use sea_object::{Op, Request, RequestFault};
use std::alloc::Global;

/// A request, and the client that makes it, 1 to 16.
#[derive(Debug, Drop)]
pub struct Asked {
    pub client: u32,
    pub request: Request,
}

/// The request that the words of a line ask for.
pub fn read_asked(alloc: Global, words: &[&[u8]]) -> Result<Asked, LineFault>
    ensures { (given : Given) → ReadsRequest (seen words.now) given result }
{
    let Some((word, others)) = words.split_first() else {
        return Err(LineFault::Why(ScriptWhy::BadClient));
    };
    let Some(client) = client_of(*word) else {
        return Err(LineFault::Why(ScriptWhy::BadClient));
    };
    let ops = ops(alloc, others)?;
    match Request::new(ops) {
        Ok(request) => Ok(Asked { client, request }),
        Err(fault) => Err(LineFault::Why(why_none(fault))),
    }
}

// Why operations that are spelled make no request.
fn why_none(fault: RequestFault) -> ScriptWhy
    ensures { result ≡ why_none fault }
{
    match fault {
        RequestFault::Empty => ScriptWhy::BadOp,
        RequestFault::TooManyOps => ScriptWhy::TooManyOps,
        RequestFault::BadRange { .. } => ScriptWhy::BadRange,
        RequestFault::BadValue { .. } => ScriptWhy::BadValue,
        RequestFault::TooManyBlocks => ScriptWhy::TooManyBlocks,
        RequestFault::TooManyKeys => ScriptWhy::TooManyKeys,
    }
}

/// What the reads of a request weigh, in bytes.
pub fn reads_weight(ops: &[Op]) -> u64
    requires { length ops.now ≤ 16 }
    ensures weight { result ≡ reads_weight ops.now }
    ensures bound { result < 2 ^ 48 }
{
    let mut weight = 0;
    for op in ops {
        weight += read_weight(op);
    }
    weight
}

// What the read of an operation weighs, in bytes.
fn read_weight(op: &Op) -> u64
    ensures weight { result ≡ read_weight op.now }
    ensures bound { result < 2 ^ 43 }
{
    match op {
        Op::Read { length, .. } => u64::from(*length),
        Op::GetAttr { .. } | Op::OmapGet { .. } => 1_024,
        Op::GetAttrs { .. } => 73_728,
        Op::OmapList { limit, .. } => 1_152 * u64::from(*limit),
        Op::List { limit, .. } => 64 * u64::from(*limit),
        _ => 0,
    }
}
