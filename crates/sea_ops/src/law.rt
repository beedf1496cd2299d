//! What holds of all transactions.
ghost use Rattle.sea_ops.specs.Transactions.{DoneIsStable, RefusedIsStable};

/// A transaction is stable by the law of each of its operations: where each was done, the model
/// answers the whole request with their items, on every store that the transaction speaks of, and
/// its changes make of that store what the request makes of the objects. Where one was refused, the
/// model refuses the request there, for the same reason.
pub fn transaction_laws()
    ensures done { DoneIsStable }
    ensures refused { RefusedIsStable }
{}
