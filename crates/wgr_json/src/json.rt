//! What can be written as JSON.
ghost use Rattle.std.specs.Prelude.{◌≡◌, false, IfOk, OnOk};
ghost use Rattle.serde_json.specs.Data.{Data};
ghost use Rattle.serde_json.specs.Events.{SendsValue};
ghost use Rattle.serde_json.specs.Written.{compact_text, has_float};

use serde::{Described, Serialize, Serializer};
use std::alloc::{AllocError, Global};
use std::marker::PhantomData;

/// A value that is shown as JSON. `In` says where: it is a type of the crate that shows the value, so that
/// a crate can show values of other crates, each in its own way.
pub trait ToJson<In> {
    /// The JSON that shows it.
    ghost shown: { Self → Data };

    /// No number in it is a float.
    ghost whole: { (x : Self) → has_float (shown x) ≡ false };

    /// Sends the JSON to a writer, with memory for its texts.
    fn send<S: Serializer>(&self, alloc: Global, out: &mut S) -> Result<(), S::Error>
        ensures { OnOk result (SendsValue (shown self.now) (S.written out.old) (S.written out.new)) };
}

// A value, and where memory for its texts comes from.
#[derive(Drop)]
struct Shown<'a, In, T> {
    value: &'a T,
    alloc: Global,
    place: PhantomData<In>,
}

impl<'a, In, T: ToJson<In>> Described for Shown<'a, In, T> {
    ghost writes = { λ s. SendsValue (T.shown s.value.now) };
}

impl<'a, In, T: ToJson<In>> Serialize for Shown<'a, In, T> {
    fn serialize<S: Serializer>(&self, out: &mut S) -> Result<(), S::Error> {
        self.value.send(self.alloc, out)
    }
}

/// The text of the value's JSON, without blanks.
pub fn to_json<In, T: ToJson<In>>(alloc: Global, value: &T) -> Result<Vec<u8>, AllocError>
    ensures { IfOk result (λ text. text.items ≡ compact_text (T.shown value.now)) }
{
    let shown = Shown::<In, T> {
        value,
        alloc,
        place: PhantomData,
    };
    match serde_json::to_vec(alloc, &shown) {
        Ok(text) => Ok(text),
        // A value that says what it writes is refused only for lack of memory.
        Err(_) => Err(AllocError),
    }
}
