//! The tables of members: what is read from each, and which rows it may have.
ghost use Rattle.std.specs.Prelude.{◌≡◌, ◌↔◌, IsTrue};
ghost use Rattle.std.specs.List.Sorted.{IsSorted};
ghost use Rattle.std.specs.Ordering.{nat_cmp};
ghost use Rattle.wgr_checks.specs.TableRows.{IsRowOf, text_of};

use crate::allowed::is_allowed_row_of;
use crate::peers::is_peer_row_of;
use sqlite::Row;

/// A table whose rows are those of members of networks.
#[derive(Clone, Copy, Debug, PartialEq, Eq)]
pub(crate) enum Table {
    /// The peers.
    Peers,
    /// The prefixes that are allowed to them.
    Allowed,
}

impl Table {
    /// The text of the query that returns what is tested of the rows, in the order of their rowids. This is the
    /// order in which they are stored, so that no row has to be held in memory for sorting.
    pub(crate) fn text(self) -> &'static str
        ensures { result.now ≡ text_of self }
    {
        match self {
            Table::Peers => {
                "SELECT id, NULL, network, NULL, NULL, until, keepalive, handshake, received, sent FROM peer ORDER BY id"
            }
            Table::Allowed => {
                "SELECT rowid, network, family, lo, length, hi, peer, kind FROM allowed ORDER BY rowid"
            }
        }
    }

    /// Whether this is a row of the table that belongs to one of these networks.
    pub(crate) fn is_row_of(self, row: &Row, networks: &[u32]) -> bool
        ensures { IsSorted nat_cmp networks.now → IsTrue result ↔ IsRowOf self networks.now row.now }
    {
        match self {
            Table::Peers => is_peer_row_of(row, networks),
            Table::Allowed => is_allowed_row_of(row, networks),
        }
    }
}
