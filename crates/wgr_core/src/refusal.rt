//! Why a command is refused.
ghost use Rattle.std.specs.Prelude.{◌≡◌};
ghost use Rattle.wgr_core.specs.RefusalNames.{refusal_name};

use std::fmt;

/// Why a command, or a line of a dump, is refused, with the fact that decides it.
#[derive(Clone, Copy, Debug, Drop, PartialEq, Eq)]
pub enum Refusal {
    /// No live peer has the number.
    NoSuchPeer,
    /// The peer with this number has the key.
    KeyHeld { number: u32 },
    /// The named address is a peer's, or a route at full length.
    AddressHeld,
    /// The pool never gives the named address.
    OutsidePool,
    /// No address is free.
    PoolFull,
    /// There are as many peers as the capacity allows.
    CapacityReached,
    /// The next number would be above 1,000,000.
    NumbersSpent,
    /// The prefix is a peer's or the server's address at full length.
    IsAddress,
    /// The prefix is no route.
    NoSuchRoute,
    /// There are as many routes as a network may have.
    RoutesFull,
    /// No allowed prefix has the address.
    NobodysAddress,
    /// The lease would have ended already.
    LeaseOver,
    /// The key is the server's own.
    ServerKey,
    /// The running interface has another public key than the server.
    WrongServer,
}

/// Why a command is refused: of Adopt, it may be a line of the dump that is refused.
#[derive(Clone, Copy, Debug, Drop, PartialEq, Eq)]
pub struct CommandRefusal {
    pub why: Refusal,
    /// The number of the refused line, the interface's line being 1.
    pub line: Option<usize>,
}

impl CommandRefusal {
    /// The name of the refusal, without its fact.
    pub fn name(&self) -> &'static str
        ensures { result.now ≡ refusal_name self.now.why }
    {
        self.why.name()
    }
}

impl From<Refusal> for CommandRefusal {
    ghost use Rattle.std.specs.Prelude.{◌≡◌};
    ghost use Rattle.wgr_core.specs.Refusals.{of_command};

    ghost from_gives = { λ why r. r ≡ of_command why };

    fn from(why: Refusal) -> CommandRefusal {
        CommandRefusal { why, line: None }
    }
}

impl Refusal {
    /// The refusal's name, without its fact: letters and underscores.
    pub fn name(&self) -> &'static str
        ensures { result.now ≡ refusal_name self.now }
    {
        match self {
            Refusal::NoSuchPeer => "no_such_peer",
            Refusal::KeyHeld { .. } => "key_held",
            Refusal::AddressHeld => "address_held",
            Refusal::OutsidePool => "outside_pool",
            Refusal::PoolFull => "pool_full",
            Refusal::CapacityReached => "capacity_reached",
            Refusal::NumbersSpent => "numbers_spent",
            Refusal::IsAddress => "is_address",
            Refusal::NoSuchRoute => "no_such_route",
            Refusal::RoutesFull => "routes_full",
            Refusal::NobodysAddress => "nobodys_address",
            Refusal::LeaseOver => "lease_over",
            Refusal::ServerKey => "server_key",
            Refusal::WrongServer => "wrong_server",
        }
    }
}

impl fmt::Display for Refusal {
    /// The refusal's name, followed by a blank and its fact where it carries one.
    fn fmt<W: fmt::Write>(&self, f: &mut fmt::Formatter<W>) -> fmt::Result {
        f.write_str(self.name())?;
        match self {
            Refusal::KeyHeld { number } => write!(f, " {number}"),
            _ => Ok(()),
        }
    }
}

impl fmt::Display for CommandRefusal {
    /// The text of the refusal, without the line's number.
    fn fmt<W: fmt::Write>(&self, f: &mut fmt::Formatter<W>) -> fmt::Result {
        self.why.fmt(f)
    }
}
