//! How many entries a register has.
ghost use Rattle.std.specs.Prelude.{◌≡◌, length, sum_by};
ghost use Rattle.wgr_show.specs.Figures.{capped};

use wgr_orders::{Census, Counted};

/// How many entries of each kind a register has.
#[derive(Clone, Copy, Debug, PartialEq, Eq)]
pub struct Figures {
    pub tenants: u64,
    pub tokens: u64,
    pub networks: u64,
    /// The rows of peers of all networks, and `u64::MAX` for more than that.
    pub peers: u64,
    /// The routes of all networks, and `u64::MAX` for more than that.
    pub routes: u64,
}

/// Counts the entries.
pub fn figures_of(census: &Census) -> Figures
    ensures tenants { result.tenants ≡ length census.now.tenants.items }
    ensures tokens { result.tokens ≡ length census.now.tokens.items }
    ensures networks { result.networks ≡ length census.now.networks.items }
    ensures peers { result.peers ≡ capped (sum_by (λ n. n.peers) census.now.networks.items) }
    ensures routes { result.routes ≡ capped (sum_by (λ n. n.routes) census.now.networks.items) }
{
    Figures {
        tenants: census.tenants.len() as u64,
        tokens: census.tokens.len() as u64,
        networks: census.networks.len() as u64,
        peers: count_peers(&census.networks),
        routes: count_routes(&census.networks),
    }
}

// How many peers all networks have.
fn count_peers(networks: &[Counted]) -> u64
    ensures { result ≡ capped (sum_by (λ n. n.peers) networks.now) }
{
    let mut peers = 0u64;
    for counted in networks {
        peers = peers.saturating_add(counted.peers as u64);
    }
    peers
}

// How many routes all networks have.
fn count_routes(networks: &[Counted]) -> u64
    ensures { result ≡ capped (sum_by (λ n. n.routes) networks.now) }
{
    let mut routes = 0u64;
    for counted in networks {
        routes = routes.saturating_add(counted.routes as u64);
    }
    routes
}
