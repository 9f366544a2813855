//! Endpoints as texts.
ghost use Rattle.std.specs.Prelude.{◌≡◌, ◌==◌, IfOk, string_bytes};
ghost use Rattle.std.specs.List.{list_any};
ghost use Rattle.wgr_peers.specs.Endpoint.{endpoint_text};

use crate::host::Host;
use crate::limits::Port;
use std::alloc::{AllocError, Global};

impl Host {
    /// The endpoint of this host and a port, as `host:port`; an IPv6 address is in brackets (RFC 3986
    /// section 3.2.2).
    pub fn endpoint(&self, alloc: Global, port: Port) -> Result<String, AllocError>
        ensures { IfOk result (λ s. string_bytes s ≡ endpoint_text self.now port) }
    {
        let host = self.as_str();
        let port = port.number();
        if has_colon(host.as_bytes()) {
            format!(in alloc; "[{host}]:{port}")
        } else {
            format!(in alloc; "{host}:{port}")
        }
    }
}

// Whether a host is an IPv6 address: a name has no colon.
fn has_colon(host: &[u8]) -> bool
    ensures { result ≡ list_any (λ b. b == 58) host.now }
{
    host.iter().any(|&byte| byte == b':')
}
