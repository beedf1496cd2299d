//! The committed objects, with their versions.
ghost use Rattle.std.specs.Prelude.{◌≡◌, ◌≤◌, length, IfOk, IfSome, OnOk, OnErr};
ghost use Rattle.std.specs.Option.{option_copied};
ghost use Rattle.sea_pieces.specs.Laying.{after_piece, laid};
ghost use Rattle.sea_pieces.specs.Spelling.{IsPiece};

use crate::Piece;
use crate::content::Content;
use sea_base::{Commit, Duplicate, Name, NoMemory};
use std::alloc::Global;
use std::collections::BTreeMap;
use std::marker::Model;

/// An object's bytes, and the last commit with a piece of the object.
#[derive(Debug, Drop)]
pub(crate) struct Version {
    commit: Commit,
    content: Content,
}

/// The committed objects under their names, which contracts see as a finite map from names to
/// versions: the bytes, and the number of the last commit with a piece of the object.
#[derive(Debug, Drop)]
pub struct Committed {
    alloc: Global,
    versions: BTreeMap<Name, Version>,
}

impl Model for Committed {
    ghost use Rattle.std.specs.FinMap as map;
    ghost use Rattle.std.specs.Coded.{coded_list, coded_ℕ};
    ghost use Rattle.sea_pieces.specs.Committed.{VersionMap, version_code};

    ghost Value = { VersionMap };

    ghost coded = { map.code (coded_list coded_ℕ) version_code };

    ghost view = { λ c. map.from_entries c.versions.entries };
}

impl Committed {
    ghost use Rattle.std.specs.FinMap as map;
    ghost use Rattle.sea_pieces.specs.Committed.{content_of, objects_in, version_of, with_piece};

    /// No object. It takes no memory.
    pub fn new(alloc: Global) -> Committed
        ensures { result ≡ map.empty }
    {
        Committed {
            alloc,
            versions: BTreeMap::new(alloc),
        }
    }

    /// The version of the object of this name: the last commit with a piece of it. None where there
    /// is no such object.
    pub fn version(&self, name: &Name) -> Option<Commit>
        ensures { result ≡ version_of self.now name.now }
    {
        match self.versions.get(name) {
            Some(version) => Some(version.commit),
            None => None,
        }
    }

    /// The bytes of the object of this name, of which there are 16,777,216 at most.
    pub fn bytes(&self, name: &Name) -> Option<&[u8]>
        ensures bytes { option_copied result ≡ content_of self.now name.now }
        ensures few { IfSome result (λ bytes. length bytes.now ≤ 16777216) }
    {
        match self.versions.get(name) {
            Some(version) => Some(version.content.bytes()),
            None => None,
        }
    }

    // The same as bytes of one's own.
    pub(crate) fn content(&self, name: &Name) -> Result<Option<Content>, NoMemory>
        ensures { IfOk result (λ found. found ≡ content_of self.now name.now) }
    {
        match self.versions.get(name) {
            Some(version) => Ok(Some(version.content.copy()?)),
            None => Ok(None),
        }
    }

    /// Lays a piece of a commit over its object, which is made where there is none. After want of
    /// memory all is as before.
    pub fn lay(&mut self, commit: Commit, piece: &Piece) -> Result<(), NoMemory>
        requires { IsPiece piece.now }
        ensures ok { OnOk result (self.new ≡ with_piece commit piece.now self.old) }
        ensures objects { OnOk result
            (objects_in self.new ≡ after_piece piece.now (objects_in self.old)) }
        ensures err { OnErr result (self.new ≡ self.old) }
    {
        if let Some(version) = self.versions.get_mut(&piece.name) {
            return version.lay(commit, piece);
        }
        let mut version = Version {
            commit,
            content: Content::new(self.alloc),
        };
        version.lay(commit, piece)?;
        self.versions.insert(piece.name.copy()?, version)?;
        Ok(())
    }
}

impl Version {
    fn lay(&mut self, commit: Commit, piece: &Piece) -> Result<(), NoMemory>
        requires { IsPiece piece.now }
        ensures ok { OnOk result (self.new ≡ record {
          commit = commit;
          content = laid piece.now.offset piece.now.bytes self.old.content;
        }) }
        ensures err { OnErr result (self.new ≡ self.old) }
    {
        self.content
            .lay(piece.offset as usize, piece.bytes.bytes())?;
        self.commit = commit;
        Ok(())
    }
}
