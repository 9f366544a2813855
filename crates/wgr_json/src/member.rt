//! Members of objects.
ghost use Rattle.std.specs.Prelude.{OnOk};
ghost use Rattle.serde_json.specs.Data.{number, string, unsigned};
ghost use Rattle.wgr_json.specs.Sending.{SendsMember};

use crate::json::ToJson;
use serde::Serializer;
use std::alloc::Global;

/// Sends a member that is a text.
pub fn send_text<S: Serializer>(name: &str, text: &str, out: &mut S) -> Result<(), S::Error>
    ensures { OnOk result (SendsMember name.now (string text.now) (S.written out.old) (S.written out.new)) }
{
    out.key(name)?;
    out.str(text)
}

/// Sends a member that is a number.
pub fn send_number<S: Serializer>(name: &str, count: u64, out: &mut S) -> Result<(), S::Error>
    ensures { OnOk result (SendsMember name.now (number (unsigned count)) (S.written out.old) (S.written out.new)) }
{
    out.key(name)?;
    out.u64(count)
}

/// Sends a member that is any JSON.
pub fn send_member<In, T: ToJson<In>, S: Serializer>(
    alloc: Global,
    name: &str,
    value: &T,
    out: &mut S,
) -> Result<(), S::Error>
    ensures { OnOk result (SendsMember name.now (T.shown value.now) (S.written out.old) (S.written out.new)) }
{
    out.key(name)?;
    value.send(alloc, out)
}
