//! Requests, and the limits of each.
ghost use Rattle.std.specs.Prelude.{◌≡◌, IfOk, IfErr, OnOk};
ghost use Rattle.std.specs.List.{list_any};
ghost use Rattle.sea_object.specs.Op.{adds, takes};
ghost use Rattle.sea_object.specs.Refusal.{Refuses};
ghost use Rattle.sea_object.specs.Request.{IsRequest};

use crate::{Kind, Op, Ops};
use sea_base::{Duplicate, NoMemory};
use std::marker::Model;
use thiserror::Error;

/// A request: 1 to 16 operations within their limits, which contracts see as the list of them.
#[derive(Debug, Drop)]
pub struct Request {
    ops: Ops,
}

/// Why operations make no request. Operations count from 1.
#[derive(Clone, Copy, Debug, PartialEq, Eq, Error)]
pub enum RequestFault {
    /// There is no operation.
    #[error("no operation")]
    Empty,
    /// There are more than 16 operations.
    #[error("too many operations")]
    TooManyOps,
    /// This operation is the first that is beyond its limits, and a number of it is.
    #[error("bad range in operation {op}")]
    BadRange {
        /// The number of the operation.
        op: u32,
    },
    /// This operation is the first that is beyond its limits, and a value of it is too long.
    #[error("bad value in operation {op}")]
    BadValue {
        /// The number of the operation.
        op: u32,
    },
    /// More than 64 blocks are written.
    #[error("too many blocks")]
    TooManyBlocks,
    /// The changes of keys weigh more than 32.
    #[error("too many keys")]
    TooManyKeys,
}

impl Model for Request {
    ghost use Rattle.std.specs.Prelude.{List};
    ghost use Rattle.sea_object.specs.declared.op.Op.{Op};
    ghost use Rattle.sea_object.specs.Request.{IsRequest};

    ghost Value = { List Op };

    ghost view = { λ r. r.ops };

    ghost invariant = { λ r. IsRequest r.ops };
}

impl Request {
    ghost use Rattle.sea_object.specs.Request.{frees};

    /// The request of these operations.
    pub fn new(ops: Ops) -> Result<Request, RequestFault>
        ensures ok { IfOk result (λ request. (request ≡ ops) × IsRequest request) }
        ensures refused { IfErr result (Refuses ops) }
    {
        check(ops.items())?;
        Ok(Request { ops })
    }

    /// The operations, in order.
    pub fn ops(&self) -> &[Op]
        ensures ops { result.now ≡ self.now }
        ensures request { IsRequest self.now }
    {
        self.ops.items()
    }

    /// Whether some operation takes something away, and each that changes anything does so.
    pub fn frees(&self) -> bool
        ensures { result ≡ frees self.now }
    {
        let ops = self.ops.items();
        some_takes(ops) && !some_adds(ops)
    }
}

fn some_takes(ops: &[Op]) -> bool
    ensures { result ≡ list_any takes ops.now }
{
    for op in ops {
        if takes(op) {
            return true;
        }
    }
    false
}

fn some_adds(ops: &[Op]) -> bool
    ensures { result ≡ list_any adds ops.now }
{
    for op in ops {
        if adds(op) {
            return true;
        }
    }
    false
}

fn takes(op: &Op) -> bool
    ensures { result ≡ takes op.now }
{
    matches!(op.kind(), Kind::Takes)
}

fn adds(op: &Op) -> bool
    ensures { result ≡ adds op.now }
{
    matches!(op.kind(), Kind::Makes | Kind::Puts)
}

// Whether the operations may be a request.
fn check(ops: &[Op]) -> Result<(), RequestFault>
    ensures ok { OnOk result (IsRequest ops.now) }
    ensures refused { IfErr result (Refuses ops.now) }
{
    if ops.is_empty() {
        return Err(RequestFault::Empty);
    }
    if ops.len() > 16 {
        return Err(RequestFault::TooManyOps);
    }
    let mut blocks = 0;
    let mut keys: u64 = 0;
    for (index, op) in ops.iter().enumerate() {
        if !op.has_good_range() {
            return Err(RequestFault::BadRange {
                op: index as u32 + 1,
            });
        }
        if !op.has_good_values() {
            return Err(RequestFault::BadValue {
                op: index as u32 + 1,
            });
        }
        blocks += op.data_blocks();
        keys = keys.saturating_add(op.key_weight());
    }
    if blocks > 64 {
        return Err(RequestFault::TooManyBlocks);
    }
    if keys > 32 {
        return Err(RequestFault::TooManyKeys);
    }
    Ok(())
}

impl Duplicate for Request {
    fn copy(&self) -> Result<Request, NoMemory> {
        Ok(Request {
            ops: self.ops.copy()?,
        })
    }
}
