//! What is wrong with a request, as its bytes alone show.
ghost use Rattle.std.specs.Prelude.{◌≡◌};
ghost use Rattle.wgr_request.specs.Fault.{field_name};

use crate::paths::Methods;
use wgr_http::MessageFault;

/// A field of a request that isn't of its form.
#[derive(Clone, Copy, Debug, PartialEq, Eq)]
pub enum RequestField {
    /// The body as a whole: no JSON object, or one with a member that its path doesn't have.
    Body,
    Key,
    Label,
    Address,
    End,
    Keepalive,
    Prefix,
}

impl RequestField {
    /// Its name in a request.
    pub fn name(self) -> &'static str
        ensures { result.now ≡ field_name self }
    {
        match self {
            RequestField::Body => "body",
            RequestField::Key => "key",
            RequestField::Label => "label",
            RequestField::Address => "address",
            RequestField::End => "end",
            RequestField::Keepalive => "keepalive",
            RequestField::Prefix => "prefix",
        }
    }
}

/// Why a request is refused by its bytes alone.
#[derive(Clone, Copy, Debug, PartialEq, Eq)]
pub enum RequestFault {
    /// The bytes are no message.
    Message(MessageFault),
    /// Nothing is served at its path.
    NoSuchPath,
    /// Its path has other methods.
    WrongMethod(Methods),
    /// It has no token, or one that no tenant has.
    UnknownToken,
    /// A field isn't of its form.
    BadField(RequestField),
    /// Its body is no dump: its first bad line and the least bad field in it, counted from 1.
    BadDump { line: usize, field: u8 },
}
