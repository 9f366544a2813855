//! Arrays, and the values in them.
ghost use Rattle.std.specs.Prelude.{◌≡◌, map, refl, OnOk};
ghost use Rattle.serde_json.specs.Events.{SendsValue};
ghost use Rattle.wgr_json.specs.Values.{array_of, count, key_data, prefix_data};
ghost use Rattle.wgr_json.specs.Whole.{array_whole};

use crate::json::ToJson;
use crate::text::{text_of_key, text_of_prefix};
use serde::Serializer;
use std::alloc::Global;
use wgr_text::{Key, Prefix};

/// Values, as the items of an array.
#[derive(Clone, Copy)]
pub struct List<'a, T>(pub &'a [T]);

impl<'a, In, T: ToJson<In>> ToJson<In> for List<'a, T> {
    ghost shown = { λ l. array_of (map T.shown l.0.now) };

    ghost whole = { λ l. array_whole T.shown T.whole l.0.now };

    fn send<S: Serializer>(&self, alloc: Global, out: &mut S) -> Result<(), S::Error> {
        out.begin_seq(Some(self.0.len()))?;
        for item in self.0 {
            item.send(alloc, out)?;
        }
        out.end_seq()
    }
}

impl<In> ToJson<In> for u32 {
    ghost shown = { λ n. count n };

    ghost whole = { λ n. refl };

    fn send<S: Serializer>(&self, _alloc: Global, out: &mut S) -> Result<(), S::Error> {
        out.u64(u64::from(*self))
    }
}

impl<In> ToJson<In> for Prefix {
    ghost shown = { λ p. prefix_data p };

    ghost whole = { λ p. refl };

    fn send<S: Serializer>(&self, alloc: Global, out: &mut S) -> Result<(), S::Error> {
        match text_of_prefix(alloc, self) {
            Ok(text) => out.str(text.as_str()),
            Err(_) => Err(out.custom("no memory")),
        }
    }
}

impl<In> ToJson<In> for Key {
    ghost shown = { λ k. key_data k };

    ghost whole = { λ k. refl };

    fn send<S: Serializer>(&self, alloc: Global, out: &mut S) -> Result<(), S::Error> {
        match text_of_key(alloc, self) {
            Ok(text) => out.str(text.as_str()),
            Err(_) => Err(out.custom("no memory")),
        }
    }
}
