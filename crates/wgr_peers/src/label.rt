//! Labels of peers.
ghost use Rattle.std.specs.Prelude.{◌≡◌, ℕ, List, [], IfOk, IfSome, IfNone, IsTrue, ◌↔◌, string_bytes};
ghost use Rattle.wgr_peers.specs.Label.{IsLabel};

use crate::limits::MAX_LABEL;
use std::alloc::{AllocError, Global};
use std::marker::Model;
use std::str;

/// A tenant's note on a peer: 0 to 64 printable ASCII characters. They are kept as a `String`, which
/// is shown and put into texts without another check.
#[derive(Debug, Drop)]
pub struct Label {
    text: String,
}

impl Model for Label {
    ghost Value = { List ℕ };

    ghost view = { λ l. string_bytes l.text };

    ghost invariant = { λ l. IsLabel (string_bytes l.text) };
}

impl Label {
    /// The empty label.
    pub fn empty(alloc: Global) -> Label
        ensures { result ≡ [] }
    {
        Label {
            text: String::new(alloc),
        }
    }

    /// The label that the text is: 0 to 64 bytes, each from 0x20 to 0x7E. It is kept as it is.
    pub fn read(alloc: Global, text: &[u8]) -> Result<Option<Label>, AllocError>
        ensures kept { IfOk result (λ found. IfSome found (λ l. l ≡ text.now)) }
        ensures valid { IfOk result (λ found. IfSome found (λ _. IsLabel text.now)) }
        ensures none { IfOk result (λ found. IfNone found (¬ (IsLabel text.now))) }
    {
        match str::from_utf8(text) {
            Ok(note) if is_label(text) => Ok(Some(Label {
                text: note.to_string(alloc)?,
            })),
            _ => Ok(None),
        }
    }

    /// A copy of the label.
    pub fn copy(&self) -> Result<Label, AllocError>
        ensures { IfOk result (λ l. l ≡ self.now) }
    {
        Ok(Label {
            text: self.text.clone()?,
        })
    }

    /// The text.
    pub fn as_str(&self) -> &str
        ensures value { result.now ≡ self.now }
        ensures valid { IsLabel self.now }
    {
        self.text.as_str()
    }
}

// Whether a label may have this text.
fn is_label(text: &[u8]) -> bool
    ensures { IsTrue result ↔ IsLabel text.now }
{
    text.len() <= MAX_LABEL && text.iter().all(|byte| matches!(byte, b' '..=b'~'))
}
