//! The lines of both files.
ghost use Rattle.std.specs.Prelude.{◌≡◌, ◌++◌, codes, decimal, OnOk};
ghost use Rattle.wgr_text.specs.PrefixText.{canonical_text};
ghost use Rattle.wgr_conf.specs.Files.{address_line, allowed_line, further, keepalive_line, key_line, line, port_line, section_head};

use std::alloc::AllocError;
use wgr_core::Form;
use wgr_text::{Addr, Key, Prefix, write_addr, write_key, write_prefix};

// Appends the text, and a newline.
#[tactic(auto, unfolding(crate::specs::Files::line))]
pub(crate) fn write_line(text: &[u8], out: &mut Vec<u8>) -> Result<(), AllocError>
    ensures { OnOk result (out.new.items ≡ out.old.items ++ line text.now) }
{
    out.extend_from_slice(text)?;
    out.extend_from_slice(b"\n")
}

// Appends the digits of a number.
pub(crate) fn write_number(number: u16, out: &mut Vec<u8>) -> Result<(), AllocError>
    ensures { OnOk result (out.new.items ≡ out.old.items ++ decimal number) }
{
    let digits = number.to_string(*out.allocator())?;
    out.extend_from_slice(digits.as_bytes())
}

// Appends a line of a number that begins with these bytes.
#[tactic(auto, unfolding(crate::specs::Files::line))]
fn write_number_line(name: &[u8], number: u16, out: &mut Vec<u8>) -> Result<(), AllocError>
    ensures { OnOk result (out.new.items ≡ out.old.items ++ line (name.now ++ decimal number)) }
{
    out.extend_from_slice(name)?;
    write_number(number, out)?;
    out.extend_from_slice(b"\n")
}

// Appends the interface's own address, where the form has it.
#[tactic(auto, unfolding(crate::specs::Files::address_line, crate::specs::Files::line))]
pub(crate) fn write_address(
    form: Form,
    address: &Addr,
    length: u8,
    out: &mut Vec<u8>,
) -> Result<(), AllocError>
    ensures { OnOk result (out.new.items ≡ out.old.items ++ address_line form (record { address = address.now; length = length })) }
{
    if form == Form::Quick {
        out.extend_from_slice(b"Address = ")?;
        write_addr(address, out)?;
        out.extend_from_slice(b"/")?;
        write_number(u16::from(length), out)?;
        out.extend_from_slice(b"\n")?;
    }
    Ok(())
}

// Appends the head of a section of a peer.
#[tactic(auto, unfolding(crate::specs::Files::section_head))]
pub(crate) fn write_section_head(key: &Key, out: &mut Vec<u8>) -> Result<(), AllocError>
    ensures { OnOk result (out.new.items ≡ out.old.items ++ section_head key.now) }
{
    write_line(b"", out)?;
    write_line(b"[Peer]", out)?;
    write_key_line(key, out)
}

// Appends the line of a public key.
#[tactic(auto, unfolding(crate::specs::Files::key_line, crate::specs::Files::line))]
fn write_key_line(key: &Key, out: &mut Vec<u8>) -> Result<(), AllocError>
    ensures { OnOk result (out.new.items ≡ out.old.items ++ key_line key.now) }
{
    out.extend_from_slice(b"PublicKey = ")?;
    write_key(key, out)?;
    out.extend_from_slice(b"\n")
}

// Appends a line of allowed prefixes.
#[tactic(auto, unfolding(crate::specs::Files::allowed_line))]
pub(crate) fn write_allowed(
    first: &Prefix,
    more: &[Prefix],
    out: &mut Vec<u8>,
) -> Result<(), AllocError>
    ensures { OnOk result (out.new.items ≡ out.old.items ++ allowed_line first.now more.now) }
{
    write_prefixes(b"AllowedIPs = ", first, more, out)
}

// Appends a line of prefixes that begins with these bytes.
#[tactic(auto, unfolding(crate::specs::Files::line))]
fn write_prefixes(
    name: &[u8],
    first: &Prefix,
    more: &[Prefix],
    out: &mut Vec<u8>,
) -> Result<(), AllocError>
    ensures { OnOk result (out.new.items ≡ out.old.items ++ line (name.now ++ canonical_text first.now ++ further more.now)) }
{
    out.extend_from_slice(name)?;
    write_prefix(first, out)?;
    write_further(more, out)?;
    out.extend_from_slice(b"\n")
}

// Appends the prefixes after the first one of a line.
fn write_further(prefixes: &[Prefix], out: &mut Vec<u8>) -> Result<(), AllocError>
    ensures { OnOk result (out.new.items ≡ out.old.items ++ further prefixes.now) }
{
    for prefix in prefixes {
        out.extend_from_slice(b", ")?;
        write_prefix(prefix, out)?;
    }
    Ok(())
}

// Appends the port on which the interface listens.
#[tactic(auto, unfolding(crate::specs::Files::port_line))]
pub(crate) fn write_port(port: u16, out: &mut Vec<u8>) -> Result<(), AllocError>
    ensures { OnOk result (out.new.items ≡ out.old.items ++ port_line port) }
{
    write_number_line(b"ListenPort = ", port, out)
}

// Appends the seconds between keepalives, where there are any.
#[tactic(auto, unfolding(crate::specs::Files::keepalive_line))]
pub(crate) fn write_keepalive(seconds: u16, out: &mut Vec<u8>) -> Result<(), AllocError>
    ensures { OnOk result (out.new.items ≡ out.old.items ++ keepalive_line seconds) }
{
    if seconds == 0 {
        return Ok(());
    }
    write_number_line(b"PersistentKeepalive = ", seconds, out)
}
