//! The columns of the register's tables: what each holds, read from a row and written to one.
//!
//! A reader returns a value exactly where the place holds one of its form, and `None` elsewhere; one
//! that needs memory returns a fault where there is none. The places have names, by table.
#![tactic(auto)]

mod address;
mod blob;
mod columns;
mod network_row;
mod number;
mod text;
mod value;

pub use address::{address_at, address_number_at, family_at, pool_in, prefix_in};
pub use blob::{digest_at, key_at};
pub use columns::{ROWID, allowed, meta, network, peer, reader, tenant, token};
pub use network_row::{NetworkRow, NetworkSettings, read_network, read_settings};
pub use number::{
    capacity_at, count_at, end_at, has_number, id_at, integer_at, is_null_at, magnitude_at,
    number_at, peer_number_at, port_at, short_at, word_at,
};
pub use text::{host_at, is_route_at, label_at, name_at};
pub use value::{
    bytes_of, count_value, end_value, family_value, number_value, peer_id_value, status_values,
};
