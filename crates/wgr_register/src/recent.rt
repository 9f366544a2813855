//! The most recently used values, as many as stay in memory.
ghost use Rattle.std.specs.Prelude.{◌≡◌, ◌≤◌, [], length, nat_eq, IfOk, OnOk};
ghost use Rattle.std.specs.List.{IsDistinct};
ghost use Rattle.std.specs.Map.{keys_of, lookup, remove_entry};
ghost use Rattle.lru.specs.LruCache.{put_entries};
ghost use Rattle.wgr_register.specs.Recent.{max_recent};

use lru::LruCache;
use std::alloc::{AllocError, Global};
use std::marker::Model;
use std::num::NonZeroUsize;

/// How many entries a [`Recent`] has at most.
pub(crate) const MAX_RECENT: usize = 64;

/// Values by their keys, [`MAX_RECENT`] at most. The least recently put is dropped first.
#[derive(Drop)]
pub(crate) struct Recent<V> {
    cache: LruCache<u64, V>,
}

impl<V> Model for Recent<V> {
    ghost use Rattle.std.specs.Prelude.{◌≡◌, ℕ};
    ghost use Rattle.std.specs.Coded.{coded_ℕ};
    ghost use Rattle.lru.specs.LruCache.{LruCache as Entries, lru_cache_code};
    ghost use Rattle.wgr_register.specs.Recent.{max_recent};

    ghost Value = { Entries ℕ V };

    ghost coded = { lru_cache_code coded_ℕ V.code };

    ghost view = { λ r. r.cache };

    ghost invariant = { λ r. r.cache.cap ≡ max_recent };
}

impl<V: Drop> Recent<V> {
    /// None yet.
    pub(crate) fn new(alloc: Global) -> Result<Recent<V>, AllocError>
        ensures { IfOk result (λ recent. recent.entries ≡ []) }
    {
        let cache = LruCache::new(alloc, NonZeroUsize::new(MAX_RECENT).unwrap())?;
        Ok(Recent { cache })
    }

    /// Takes out the value of this key, if there is one.
    pub(crate) fn pop(&mut self, key: u64) -> Option<V>
        ensures value { result ≡ lookup (nat_eq key) self.old.entries }
        ensures entries { self.new.entries ≡ remove_entry (nat_eq key) self.old.entries }
    {
        self.cache.pop(&key)
    }

    /// Puts the value, in place of one of this key.
    pub(crate) fn put(&mut self, key: u64, value: V) -> Result<(), AllocError>
        ensures entries { OnOk result (self.new.entries ≡ put_entries nat_eq self.old key value) }
    {
        match self.cache.put(key, value) {
            Ok(_) => Ok(()),
            Err(_) => Err(AllocError),
        }
    }

    /// Whether there is a value of this key. No contract says it: the caller may act either way.
    pub(crate) fn has(&self, key: u64) -> bool {
        self.cache.contains(&key)
    }

    /// How many there are.
    pub(crate) fn len(&self) -> usize
        ensures len { result ≡ length self.now.entries }
        ensures at_most { result ≤ max_recent }
        ensures distinct { IsDistinct nat_eq (keys_of self.now.entries) }
    {
        self.cache.len()
    }
}
