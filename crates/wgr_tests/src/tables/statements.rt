//! The statements of the tests on tables: those that make the first rows, and the queries that show rows.
pub(super) const TABLES: &str = "CREATE TABLE meta (version INTEGER PRIMARY KEY) STRICT;
CREATE TABLE tenant (id INTEGER PRIMARY KEY, name TEXT NOT NULL UNIQUE) STRICT;
CREATE TABLE token (digest BLOB NOT NULL PRIMARY KEY, tenant INTEGER NOT NULL) STRICT;
CREATE TABLE network (id INTEGER PRIMARY KEY, tenant INTEGER NOT NULL, name TEXT NOT NULL, family INTEGER NOT NULL, lo BLOB NOT NULL, length INTEGER NOT NULL, host TEXT NOT NULL, port INTEGER NOT NULL, server BLOB NOT NULL, capacity INTEGER NOT NULL, next INTEGER NOT NULL, UNIQUE (tenant, name), UNIQUE (host, port)) STRICT;
CREATE TABLE peer (id INTEGER PRIMARY KEY, network INTEGER NOT NULL, key BLOB NOT NULL, label TEXT NOT NULL, until INTEGER NOT NULL, keepalive INTEGER NOT NULL, handshake INTEGER, received INTEGER, sent INTEGER, UNIQUE (network, key)) STRICT;
CREATE TABLE allowed (network INTEGER NOT NULL, family INTEGER NOT NULL, lo BLOB NOT NULL, length INTEGER NOT NULL, hi BLOB NOT NULL, peer INTEGER NOT NULL, kind TEXT NOT NULL, PRIMARY KEY (network, family, lo, length)) STRICT;
CREATE INDEX allowed_peer ON allowed (network, peer);
CREATE TABLE second (network INTEGER PRIMARY KEY, family INTEGER NOT NULL, lo BLOB NOT NULL, length INTEGER NOT NULL) STRICT;
CREATE TABLE reader (digest BLOB NOT NULL PRIMARY KEY) STRICT;
INSERT INTO meta (version) VALUES (3);
INSERT INTO tenant (id, name) VALUES (7, 'acme');";

// The network 3, whose pool is 10.8.0.0/29, without peers, and the network 4, which has a peer and a
// route.
pub(super) const NETWORKS: &str =
    "INSERT INTO network (id, tenant, name, family, lo, length, host, port, server, capacity, next) VALUES
(3, 7, 'office', 4, x'0000000000000000000000000a080000', 29, 'vpn.example.net', 51820, x'0909090909090909090909090909090909090909090909090909090909090909', 5, 1),
(4, 7, 'lab', 4, x'0000000000000000000000000a090000', 29, 'vpn.example.net', 51821, x'0909090909090909090909090909090909090909090909090909090909090909', 5, 2);
INSERT INTO peer (id, network, key, label, until, keepalive) VALUES (4194305, 4, x'0101010101010101010101010101010101010101010101010101010101010101', '', 0, 0);
INSERT INTO allowed (network, family, lo, length, hi, peer, kind) VALUES
(4, 4, x'0000000000000000000000000a090002', 32, x'0000000000000000000000000a090002', 4194305, 'address'),
(4, 4, x'000000000000000000000000c0a80400', 24, x'000000000000000000000000c0a804ff', 4194305, 'route');";

// A peer and two routes of the network 3.
pub(super) const PEER: &str = "UPDATE network SET next = 2 WHERE id = 3;
INSERT INTO peer (id, network, key, label, until, keepalive, handshake, received, sent) VALUES (3145729, 3, x'0101010101010101010101010101010101010101010101010101010101010101', 'Printer', 100, 25, 7, 8, 9223372036854775807);
INSERT INTO allowed (network, family, lo, length, hi, peer, kind) VALUES
(3, 4, x'0000000000000000000000000a080002', 32, x'0000000000000000000000000a080002', 3145729, 'address'),
(3, 6, x'fd000009000000000000000000000000', 64, x'fd00000900000000ffffffffffffffff', 3145729, 'route'),
(3, 4, x'000000000000000000000000c0a80400', 24, x'000000000000000000000000c0a804ff', 3145729, 'route');";

// The rows of the network 3.
pub(super) const PEERS: &str =
    "SELECT id, key, label, until, keepalive, handshake, received, sent FROM peer WHERE network = 3 ORDER BY id";

pub(super) const ALLOWED: &str =
    "SELECT family, lo, length, hi, peer, kind FROM allowed WHERE network = 3 ORDER BY family, lo, length";

// The rows of both networks, and those of the network 4 alone.
pub(super) const NEXT: &str =
    "SELECT id, tenant, name, port, capacity, next FROM network ORDER BY id";

pub(super) const OTHERS: &str =
    "SELECT id, key, until, lo, length, hi, peer, kind FROM peer JOIN allowed ON peer = id WHERE id = 4194305 ORDER BY lo";
