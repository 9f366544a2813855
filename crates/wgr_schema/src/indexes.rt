//! Whether indexes are the register's.
ghost use Rattle.std.specs.Prelude.{◌≡◌, IsTrue};
ghost use Rattle.wgr_columns.specs.Layout.{register_indexes};

use crate::form::is_index;
use sqlite_schema::schema::Index;

/// Whether these are the register's indexes. The first six are those of the tables' keys.
pub(crate) fn are_register_indexes(indexes: &[Index]) -> bool
    ensures is { IsTrue result → indexes.now ≡ register_indexes }
    ensures only { indexes.now ≡ register_indexes → IsTrue result }
{
    match indexes {
        [tenant, token, slot, endpoint, key, prefix, peer] => {
            if !is_index(tenant, b"sqlite_autoindex_tenant_1", 2, 1, &[2], true) {
                return false;
            }
            if !is_index(token, b"sqlite_autoindex_token_1", 4, 3, &[1], true) {
                return false;
            }
            if !is_index(slot, b"sqlite_autoindex_network_1", 6, 5, &[2, 3], true) {
                return false;
            }
            if !is_index(endpoint, b"sqlite_autoindex_network_2", 7, 5, &[7, 8], true) {
                return false;
            }
            if !is_index(key, b"sqlite_autoindex_peer_1", 9, 8, &[2, 3], true) {
                return false;
            }
            if !is_index(
                prefix,
                b"sqlite_autoindex_allowed_1",
                11,
                10,
                &[1, 2, 3, 4],
                true,
            ) {
                return false;
            }
            is_index(peer, b"allowed_peer", 12, 10, &[1, 6], false)
        }
        _ => false,
    }
}
