//! The words of an operator's order, as texts by their names.

/// An order on a register. Its token is never among these words.
#[derive(Clone, Copy)]
pub enum OrderWords<'a> {
    TenantAdd {
        name: &'a str,
    },
    /// Without a right the token has the full one.
    TokenGrant {
        tenant: &'a str,
        right: Option<&'a str>,
    },
    TokenEnd,
    /// The end of a token by its SHA-256, as 64 hexadecimal digits.
    DigestEnd {
        digest: &'a str,
    },
    NetworkAdd(NetworkWords<'a>),
    NetworkEnd {
        tenant: &'a str,
        name: &'a str,
    },
}

/// The settings of a new network.
#[derive(Clone, Copy)]
pub struct NetworkWords<'a> {
    pub tenant: &'a str,
    pub name: &'a str,
    pub pool: &'a str,
    pub host: &'a str,
    pub port: &'a str,
    pub key: &'a str,
    pub capacity: &'a str,
}
