//! Commands that aren't read from a JSON body: from the target alone, or from a dump.
ghost use Rattle.wgr_request.specs.Bodies.{ReadsAs};
ghost use Rattle.wgr_request.specs.Commands.{IsAdoption, IsOwner};

use crate::adoption::adoption_of;
use crate::bodies::BodyFault;
use crate::fault::{RequestFault, RequestField};
use std::alloc::Global;
use wgr_core::Command;
use wgr_dump::{BadDump, Dump};
use wgr_text::Addr;

/// The command that adopts the dump that a body is.
pub fn read_adoption(alloc: Global, body: &[u8]) -> Result<Command, BodyFault>
    ensures { ReadsAs (IsAdoption body.now) result }
{
    match Dump::open(body) {
        Ok(dump) => Ok(adoption_of(alloc, &dump)?),
        Err(BadDump { line, field }) => Err(BodyFault::Refused(RequestFault::BadDump {
            line,
            field,
        })),
    }
}

/// The command that asks for the owner of an address. The text has no length.
pub fn read_owner(text: &[u8]) -> Result<Command, BodyFault>
    ensures { ReadsAs (IsOwner text.now) result }
{
    match Addr::read(text) {
        Some(address) => Ok(Command::Owner { address }),
        None => Err(BodyFault::Refused(RequestFault::BadField(RequestField::Address))),
    }
}
