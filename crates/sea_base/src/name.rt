//! Names of objects, and keys of attributes and omaps.
ghost use Rattle.std.specs.Prelude.{◌≡◌, ◌≤◌, ◌↔◌, length, IfOk, IfSome, IfNone, IsErrOf, IsTrue};
ghost use Rattle.sea_base.specs.Name.{IsName};

use crate::{Data, Duplicate, NoMemory};
use std::alloc::Global;
use std::marker::Model;
use thiserror::Error;

/// A name: 1 to 64 bytes of any value, which contracts see as the list of its bytes.
#[derive(Debug, PartialEq, Eq, PartialOrd, Ord, Drop)]
pub struct Name {
    bytes: Data,
}

/// A key of an attribute or of an omap, made as a name is.
pub type Key = Name;

/// Why bytes make no name.
#[derive(Clone, Copy, Debug, PartialEq, Eq, Error)]
pub enum NameFault {
    /// Memory ran out.
    #[error("no memory")]
    NoMemory,
    /// There are not 1 to 64 bytes.
    #[error("bad name")]
    BadName,
}

/// Whether bytes make a name: there are 1 to 64.
pub fn is_name(bytes: &[u8]) -> bool
    ensures { IsTrue result ↔ IsName bytes.now }
{
    (1..=64).contains(&bytes.len())
}

impl Model for Name {
    ghost use Rattle.std.specs.Prelude.{List, ℕ};
    ghost use Rattle.sea_base.specs.Name.{IsName};

    ghost Value = { List ℕ };

    ghost view = { λ n. n.bytes };

    ghost invariant = { λ n. IsName n.bytes };

    ghost inverse = { λ bytes. record { bytes = bytes } };
}

impl Name {
    /// The name of these bytes.
    pub fn new(alloc: Global, bytes: &[u8]) -> Result<Name, NameFault>
        ensures ok { IfOk result (λ name. (name ≡ bytes.now) × IsName name) }
        ensures bad { IsErrOf result NameFault.BadName → IsName bytes.now → ⊥ }
        ensures memory { IsErrOf result NameFault.NoMemory → IsName bytes.now }
    {
        if !is_name(bytes) {
            return Err(NameFault::BadName);
        }
        let bytes = Data::new(alloc, bytes).map_err(|_| NameFault::NoMemory)?;
        Ok(Name { bytes })
    }

    /// The name of a byte string, which is shared, if it makes one.
    pub fn from_data(bytes: Data) -> Option<Name>
        ensures some { IfSome result (λ name. (name ≡ bytes) × IsName name) }
        ensures none { IfNone result (IsName bytes → ⊥) }
    {
        if is_name(bytes.bytes()) {
            Some(Name { bytes })
        } else {
            None
        }
    }

    /// The bytes, of which there are 1 to 64.
    pub fn bytes(&self) -> &[u8]
        ensures bytes { result.now ≡ self.now }
        ensures name { IsName self.now }
    {
        self.bytes.bytes()
    }
}

impl Duplicate for Name {
    fn copy(&self) -> Result<Name, NoMemory> {
        let bytes = self.bytes.copy()?;
        Ok(Name { bytes })
    }
}
