//! What holds of each run of turns, and of all images.
ghost use Rattle.sea_engine.specs.EngineLaws.{AnchorOpens, LeavesPrefix};
ghost use Rattle.sea_engine.specs.OpeningLaws.{NotShut, OneMap};
ghost use Rattle.sea_engine.specs.TurnLaws.{Acknowledges, Appends, SendsAllBack, SendsOneBack, ServesPlan};

use sea_device::Device;
use sea_transactions::Transactions;

/// A run of turns keeps a history that serves the plan, each client's requests once and in order.
/// No more is acknowledged than is entered, the history is only added to, and clients are sent back
/// no more often than others' requests were done meanwhile.
pub fn turn_laws()
    ensures serves { ServesPlan }
    ensures acknowledged { Acknowledges }
    ensures goes_on { Appends }
    ensures sent_back { SendsOneBack }
    ensures all_sent_back { SendsAllBack }
{}

/// An image opens to one map of objects alone, and then is not shut.
pub fn opening_laws<T: Transactions>()
    ensures one { OneMap T.lays }
    ensures not_shut { NotShut T.lays }
{}

/// Each clear image that a crash may leave of an engine opens to the objects after a prefix of its
/// history, with all that is acknowledged; and so does the image of the last good sync of records.
pub fn engine_laws<D: Device, T: Transactions + Drop>()
    ensures prefix { LeavesPrefix D.Device T.Transactions }
    ensures anchor { AnchorOpens D.Device T.Transactions }
{}
