//! The places of the columns in a row of each table: the rowid is first, and the columns follow it
//! in their order. Where the first column is an alias of the rowid, as each `id` is, its own place
//! holds nothing, and queries return NULL there: so these tables have no place 1.

/// The rowid, in each table.
pub const ROWID: usize = 0;

/// Columns of `meta`.
pub mod meta {
    /// The layout's version, which is the rowid.
    pub const VERSION: usize = 0;
}

/// Columns of `tenant`.
pub mod tenant {
    /// The tenant's id, which is the rowid.
    pub const ID: usize = 0;
    /// The tenant's name.
    pub const NAME: usize = 2;
}

/// Columns of `token`.
pub mod token {
    /// The token's digest.
    pub const DIGEST: usize = 1;
    /// The id of the tenant whose token it is.
    pub const TENANT: usize = 2;
}

/// Columns of `network`.
pub mod network {
    /// The network's id, which is the rowid.
    pub const ID: usize = 0;
    /// The id of the tenant whose network it is.
    pub const TENANT: usize = 2;
    /// The network's name.
    pub const NAME: usize = 3;
    /// The pool's family.
    pub const FAMILY: usize = 4;
    /// The pool's first address.
    pub const LO: usize = 5;
    /// The pool's length.
    pub const LENGTH: usize = 6;
    /// The server's host.
    pub const HOST: usize = 7;
    /// The server's port.
    pub const PORT: usize = 8;
    /// The server's key.
    pub const SERVER: usize = 9;
    /// How many peers the network may have.
    pub const CAPACITY: usize = 10;
    /// The number of the next peer.
    pub const NEXT: usize = 11;
}

/// Columns of `second`.
pub mod second {
    /// The id of the network whose second pool it is, which is the rowid.
    pub const NETWORK: usize = 0;
    /// The pool's family.
    pub const FAMILY: usize = 2;
    /// The pool's first address.
    pub const LO: usize = 3;
    /// The pool's length.
    pub const LENGTH: usize = 4;
}

/// Columns of `reader`.
pub mod reader {
    /// The digest of a token that only reads.
    pub const DIGEST: usize = 1;
}

/// The text of a query of networks, with each column at its place. What stands behind the table's name is
/// the argument, a literal that begins with a space, or there is none.
#[macro_export]
macro_rules! select_networks {
    ($($rest:literal)?) => {
        concat!(
            "SELECT id, NULL, tenant, name, family, lo, length, host, port, server, capacity, next FROM network"
            $(, $rest)?
        )
    };
}

/// Columns of `peer`.
pub mod peer {
    /// The peer's id, which is the rowid.
    pub const ID: usize = 0;
    /// The id of the network whose peer it is.
    pub const NETWORK: usize = 2;
    /// The peer's key.
    pub const KEY: usize = 3;
    /// The peer's label.
    pub const LABEL: usize = 4;
    /// When the peer's lease ends.
    pub const UNTIL: usize = 5;
    /// The peer's keepalive.
    pub const KEEPALIVE: usize = 6;
    /// When a running interface last reported a handshake.
    pub const HANDSHAKE: usize = 7;
    /// How many bytes it reported as received.
    pub const RECEIVED: usize = 8;
    /// How many bytes it reported as sent.
    pub const SENT: usize = 9;
}

/// Columns of `allowed`.
pub mod allowed {
    /// The id of the network that the prefix is allowed in.
    pub const NETWORK: usize = 1;
    /// The prefix's family.
    pub const FAMILY: usize = 2;
    /// The prefix's first address.
    pub const LO: usize = 3;
    /// The prefix's length.
    pub const LENGTH: usize = 4;
    /// The prefix's last address.
    pub const HI: usize = 5;
    /// The id of the peer that it leads to.
    pub const PEER: usize = 6;
    /// Whether it is a peer's address or a route.
    pub const KIND: usize = 7;
}
