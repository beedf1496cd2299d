//! What holds of each journal's past.
ghost use Rattle.sea_journal.specs.Laws.{AnchorIsClear, ClearHasPrefix};

/// A clear image of a crash has the trail of what is stable, and then a prefix of what is queued.
/// The anchor, which is the image of the last good sync, is clear.
pub fn journal_laws()
    ensures prefix { ClearHasPrefix }
    ensures anchor { AnchorIsClear }
{}
