//! Parts of a text that are written one after the other.
ghost use Rattle.std.specs.Prelude.{◌≡◌, flat_map, true, OnErr, OnOk};
ghost use Rattle.std.specs.Io.KnownBytes.{Appends};
ghost use Rattle.wgr_io.specs.Device.{IsCut};

use wgr_io::{Write, WriteFault, write_all};

/// Writes all parts, or only their first bytes if a write fails.
pub(crate) fn write_parts<W: Write>(parts: &[&[u8]], out: &mut W) -> Result<(), WriteFault>
    ensures ok { OnOk result (Appends (W.contents out.old) (W.contents out.new) (flat_map (λ part. part.now) parts.now)) }
    ensures sound { OnOk result (W.failed out.new ≡ W.failed out.old) }
    ensures cut { OnErr result (IsCut (W.contents out.old) (W.contents out.new) (flat_map (λ part. part.now) parts.now)) }
    ensures failed { OnErr result (W.failed out.new ≡ true) }
{
    for part in parts {
        write_all(out, part)?;
    }
    Ok(())
}
