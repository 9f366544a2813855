//! Networks by name.
ghost use Rattle.std.specs.Prelude.{◌≡◌, [], IfOk, OnOk};
ghost use Rattle.wgr_model.specs.Listing.{put_entry};

use std::alloc::{AllocError, Global};
use std::cmp::Ordering;
use std::collections::BTreeMap;
use std::marker::Model;
use wgr_core::{Name, Network};

// A name as the key of a map: in the order of its bytes.
#[derive(Drop)]
struct Key {
    name: Name,
}

impl Model for Key {
    ghost use Rattle.wgr_model.specs.Register.{Bytes};

    ghost Value = { Bytes };

    ghost view = { λ k. k.name };
}

impl PartialEq for Key {
    ghost use Rattle.std.specs.Prelude.{nat_eq};
    ghost use Rattle.std.specs.Cmp.{partial_equiv_from_equiv};
    ghost use Rattle.std.specs.Cmp.Lexicographic.{nat_list_eq_equiv, pointwise};

    ghost eq = { pointwise nat_eq };

    ghost laws = { partial_equiv_from_equiv nat_list_eq_equiv };

    fn eq(&self, other: &Key) -> bool {
        self.name.as_bytes() == other.name.as_bytes()
    }
}

impl Eq for Key {
    ghost use Rattle.std.specs.Cmp.Lexicographic.{nat_list_eq_equiv};

    ghost laws = { nat_list_eq_equiv };
}

impl PartialOrd for Key {
    ghost use Rattle.std.specs.Prelude.{Some};
    ghost use Rattle.std.specs.Ordering.{nat_cmp};
    ghost use Rattle.std.specs.Cmp.Lexicographic.{slice_cmp, texts_po};

    ghost partial_cmp = { λ x y. Some (slice_cmp nat_cmp x y) };

    ghost laws = { texts_po };

    fn partial_cmp(&self, other: &Key) -> Option<Ordering> {
        Some(self.cmp(other))
    }
}

impl Ord for Key {
    ghost use Rattle.std.specs.Prelude.{refl};
    ghost use Rattle.std.specs.Ordering.{nat_cmp};
    ghost use Rattle.std.specs.Cmp.Lexicographic.{nat_list_cmp_total, slice_cmp, texts_ties};

    ghost cmp = { slice_cmp nat_cmp };

    ghost total = { nat_list_cmp_total };

    ghost matches_partial_cmp = { λ x y. refl };

    ghost matches_eq = { texts_ties };

    fn cmp(&self, other: &Key) -> Ordering {
        self.name.as_bytes().cmp(other.name.as_bytes())
    }
}

/// Networks by name, in the byte order of the names. To put one takes a time that grows as the logarithm of
/// how many there are.
#[derive(Drop)]
pub struct ByName {
    map: BTreeMap<Key, Network>,
}

impl Model for ByName {
    ghost use Rattle.wgr_model.specs.Listing.{Entries};

    ghost Value = { Entries };

    ghost view = { λ b. b.map.entries };
}

impl ByName {
    /// No networks.
    pub fn new(alloc: Global) -> ByName
        ensures { result ≡ [] }
    {
        ByName {
            map: BTreeMap::new(alloc),
        }
    }

    /// Puts a network in the place for its name, and replaces the one of its name if there is one.
    pub fn put(&mut self, name: Name, network: Network) -> Result<(), AllocError>
        ensures { OnOk result (self.new ≡ put_entry name network self.old) }
    {
        self.map.insert(Key { name }, network)?;
        Ok(())
    }

    /// The names with their networks, in order.
    pub fn into_entries(self, alloc: Global) -> Result<Vec<(Name, Network)>, AllocError>
        ensures { IfOk result (λ entries. entries.items ≡ self) }
    {
        let mut entries = Vec::new(alloc);
        for (key, network) in self.map {
            entries.push((key.name, network))?;
        }
        Ok(entries)
    }
}
