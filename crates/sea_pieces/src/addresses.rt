//! The addresses of objects.
ghost use Rattle.std.specs.Prelude.{◌≡◌, option_map, IfOk, OnErr};

use sea_base::{Duplicate, Laddr, Name, NoMemory};
use std::alloc::Global;
use std::collections::BTreeMap;
use std::marker::Model;

/// The addresses of object names, in the order in which the names were met: 2 for the first. A name
/// keeps its address, whether there is an object of that name or not.
#[derive(Debug, Drop)]
pub struct Addresses {
    addresses: BTreeMap<Name, u64>,
}

impl Model for Addresses {
    ghost use Rattle.std.specs.FinMap as map;
    ghost use Rattle.std.specs.Coded.{coded_list, coded_ℕ};
    ghost use Rattle.sea_pieces.specs.Addresses.{AddressMap, AreApart};

    ghost Value = { AddressMap };

    ghost coded = { map.code (coded_list coded_ℕ) coded_ℕ };

    ghost view = { λ a. map.from_entries a.addresses.entries };

    ghost invariant = { λ a. AreApart (map.from_entries a.addresses.entries) };
}

impl Addresses {
    ghost use Rattle.std.specs.FinMap as map;
    ghost use Rattle.sea_pieces.specs.Addresses.{AreApart, address_of};

    /// No name was met. It takes no memory.
    pub fn new(alloc: Global) -> Addresses
        ensures { result ≡ map.empty }
    {
        Addresses {
            addresses: BTreeMap::new(alloc),
        }
    }

    /// The address of a name that was met.
    pub fn of(&self, name: &Name) -> Option<Laddr>
        ensures address { option_map (λ at. at.0) result ≡ map.get self.now name.now }
        ensures apart { AreApart self.now }
    {
        match self.addresses.get(name) {
            Some(at) => Some(Laddr(*at)),
            None => None,
        }
    }

    /// The address of a name, which gets the next one where it is met for the first time. After want
    /// of memory all is as before.
    pub fn meet(&mut self, name: &Name) -> Result<Laddr, NoMemory>
        ensures address { IfOk result (λ at. at.0 ≡ address_of self.old name.now) }
        ensures met { IfOk result (λ at. self.new ≡ map.insert self.old name.now at.0) }
        ensures apart { AreApart self.new }
        ensures err { OnErr result (self.new ≡ self.old) }
    {
        if let Some(at) = self.addresses.get(name) {
            return Ok(Laddr(*at));
        }
        let at = 2 + self.addresses.len() as u64;
        self.addresses.insert(name.copy()?, at)?;
        Ok(Laddr(at))
    }
}
