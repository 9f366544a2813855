//! Why an order is refused.
ghost use Rattle.std.specs.Prelude.{◌≡◌};
ghost use Rattle.wgr_orders.specs.Orders.{refusal_of};
ghost use Rattle.wgr_orders.specs.RefusalTexts.{order_refusal_name};

use std::alloc::AllocError;
use std::fmt;

/// Why an order is refused.
#[derive(Debug, Drop)]
pub enum OrderRefusal {
    /// A tenant, or a network of the tenant, already has the name.
    NameHeld,
    /// No tenant has the name.
    NoSuchTenant,
    /// A tenant already has the token.
    DigestHeld,
    /// The pool of this network of this tenant shares an address with the new one; of several networks, the
    /// first by the tenant's name, then by its own.
    PoolOverlaps { tenant: String, network: String },
    /// The address and the length make no pool.
    BadPool,
    /// A network already has the host and the port.
    PortHeld,
    /// No tenant has the token.
    NoSuchToken,
    /// The tenant has no network of the name.
    NoNetwork,
    /// The register already has as many entries as it takes.
    RegisterFull,
}

/// Why an order isn't done.
#[derive(Debug, Drop)]
pub enum OrderFault {
    /// The register refuses it.
    Refused(OrderRefusal),
    /// Memory was refused.
    NoMemory,
}

impl From<AllocError> for OrderFault {
    ghost use Rattle.std.specs.Prelude.{◌≡◌};
    ghost use Rattle.wgr_orders.specs.declared.refusal.OrderFault.TheVariants.{NoMemory};

    ghost from_gives = { λ _ r. r ≡ NoMemory };

    fn from(_: AllocError) -> OrderFault {
        OrderFault::NoMemory
    }
}

impl OrderRefusal {
    /// The refusal's name, without the names of a tenant and a network: letters and underscores.
    pub fn name(&self) -> &'static str
        ensures { result.now ≡ order_refusal_name (refusal_of self.now) }
    {
        match self {
            OrderRefusal::NameHeld => "name_held",
            OrderRefusal::NoSuchTenant => "no_such_tenant",
            OrderRefusal::DigestHeld => "digest_held",
            OrderRefusal::PoolOverlaps { .. } => "pool_overlaps",
            OrderRefusal::BadPool => "bad_pool",
            OrderRefusal::PortHeld => "port_held",
            OrderRefusal::NoSuchToken => "no_such_token",
            OrderRefusal::NoNetwork => "no_network",
            OrderRefusal::RegisterFull => "register_full",
        }
    }
}

impl fmt::Display for OrderRefusal {
    /// The refusal's name; for a pool that overlaps, the names of the tenant and of the network
    /// after it.
    fn fmt<W: fmt::Write>(&self, f: &mut fmt::Formatter<W>) -> fmt::Result {
        f.write_str(self.name())?;
        match self {
            OrderRefusal::PoolOverlaps { tenant, network } => write!(f, " {tenant} {network}"),
            _ => Ok(()),
        }
    }
}
