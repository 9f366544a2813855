//! What the operator orders and the tenants ask, one after the other.
use wgr_orders::Right;

/// An order, a command to a network, or a list. A token is the byte that its digest repeats.
#[derive(Clone, Copy)]
pub(crate) enum Step {
    Tenant(&'static str),
    Grant(&'static str, u8, Right),
    EndToken(u8),
    Network(&'static str, &'static str, &'static str),
    End(&'static str, &'static str),
    Ask(u8, &'static str, Asked),
    List(u8),
}

/// A command, with the number of its peer and its prefix. A key is the byte that it repeats.
#[derive(Clone, Copy)]
pub(crate) enum Asked {
    Take(&'static str),
    Add(u8),
    Route(u32, &'static str),
    Revoke(u32),
    File,
}

/// An interface with three peers: one without prefixes, one with an address and a route, and one with a
/// route.
const DUMP: &str =
    "(none)\tCQkJCQkJCQkJCQkJCQkJCQkJCQkJCQkJCQkJCQkJCQk=\t51820\toff\nAQEBAQEBAQEBAQEBAQEBAQEBAQEBAQEBAQEBAQEBAQE=\t(none)\t(none)\t(none)\t0\t0\t0\toff\nAgICAgICAgICAgICAgICAgICAgICAgICAgICAgICAgI=\t(none)\t198.51.100.7:40000\t10.8.0.2/32,192.168.4.0/24\t1700000000\t1024\t2048\t25\nAwMDAwMDAwMDAwMDAwMDAwMDAwMDAwMDAwMDAwMDAwM=\tAAAAAAAAAAAAAAAAAAAAAAAAAAAAAAAAAAAAAAAAAAA=\t[2001:db8::1]:51820\tfd00:9::/64\t0\t0\t0\toff\n";

/// The steps. The line of the dump that names an address comes first, as the peer 1; a prefix goes from
/// that peer to the next. The last three show what acme sees, before and after a network of bolt's ends.
pub(crate) const STEPS: [Step; 17] = [
    Step::Tenant("acme"),
    Step::Grant("acme", 1, Right::Full),
    Step::Grant("acme", 3, Right::Read),
    Step::Network("acme", "office", "10.8.0.0/24"),
    Step::Tenant("bolt"),
    Step::Grant("bolt", 2, Right::Full),
    Step::Network("bolt", "lab", "10.9.0.0/24"),
    Step::Ask(1, "office", Asked::Take(DUMP)),
    Step::Ask(2, "lab", Asked::Add(1)),
    Step::Ask(2, "lab", Asked::Route(1, "192.168.4.0/24")),
    Step::Ask(1, "office", Asked::Route(2, "192.168.4.0/24")),
    Step::Ask(1, "office", Asked::Revoke(3)),
    Step::Ask(3, "office", Asked::File),
    Step::EndToken(3),
    Step::End("bolt", "lab"),
    Step::Ask(1, "office", Asked::File),
    Step::List(1),
];

/// The file of the server of acme's office, whenever the steps ask for it.
pub(crate) const FILE: &str = "[Interface]\n\
                               ListenPort = 51820\n\
                               \n\
                               [Peer]\n\
                               PublicKey = AgICAgICAgICAgICAgICAgICAgICAgICAgICAgICAgI=\n\
                               AllowedIPs = 10.8.0.2/32\n\
                               PersistentKeepalive = 25\n\
                               \n\
                               [Peer]\n\
                               PublicKey = AQEBAQEBAQEBAQEBAQEBAQEBAQEBAQEBAQEBAQEBAQE=\n\
                               AllowedIPs = 10.8.0.3/32, 192.168.4.0/24\n";

/// Whether the step changes no row.
pub(crate) fn is_reading(step: &Step) -> bool {
    matches!(step, Step::Ask(_, _, Asked::File) | Step::List(_))
}
