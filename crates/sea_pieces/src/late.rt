//! Pieces that are not laid over their objects yet.
ghost use Rattle.std.specs.Prelude.{◌≡◌, [], IfSome, length, slice_get};
ghost use Rattle.std.specs.List.{AllByRecursion};
ghost use Rattle.std.specs.Option.{option_copied};
ghost use Rattle.sea_pieces.specs.Spelling.{IsPiece};

use crate::{Piece, Pieces};
use std::alloc::Global;
use std::marker::Model;

/// The pieces of a commit that are not laid over the committed objects yet, in order.
#[derive(Debug, Drop)]
pub(crate) struct Late {
    pieces: Pieces,
    laid: usize,
}

impl Model for Late {
    ghost use Rattle.std.specs.Prelude.{List, drop};
    ghost use Rattle.std.specs.List.{AllByRecursion};
    ghost use Rattle.sea_pieces.specs.Spelling.{IsPiece};
    ghost use Rattle.sea_pieces.specs.declared.piece.Piece.{Piece};

    ghost Value = { List Piece };

    ghost view = { λ l. drop l.laid l.pieces };

    ghost invariant = { λ l. AllByRecursion IsPiece l.pieces };
}

impl Late {
    ghost use Rattle.std.specs.Prelude.{drop};

    /// None is late. It takes no memory.
    pub(crate) fn new(alloc: Global) -> Late
        ensures { result ≡ [] }
    {
        Late {
            pieces: Pieces::new(alloc),
            laid: 0,
        }
    }

    /// All of these are late.
    pub(crate) fn of(pieces: Pieces) -> Late
        requires { AllByRecursion IsPiece pieces }
        ensures { result ≡ pieces }
    {
        Late { pieces, laid: 0 }
    }

    /// How many are late.
    pub(crate) fn len(&self) -> usize
        ensures { result ≡ length self.now }
    {
        self.pieces.items().len().saturating_sub(self.laid)
    }

    /// The first of them.
    pub(crate) fn first(&self) -> Option<&Piece>
        ensures first { option_copied result ≡ slice_get self.now 0 }
        ensures piece { IfSome result (λ piece. IsPiece piece.now) }
    {
        self.pieces.items().get(self.laid)
    }

    /// The first of them, if there is one, is late no more.
    pub(crate) fn pass(&mut self)
        ensures { self.new ≡ drop 1 self.old }
    {
        if self.laid < self.pieces.items().len() {
            self.laid += 1;
        }
    }
}
