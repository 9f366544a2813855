//! The register of all tenants in a SQLite database.
#![tactic(auto)]

mod ask;
mod asked;
mod census;
mod fault;
mod files;
mod given;
mod kept_file;
mod list;
mod loaded;
mod memory;
mod order;
mod outlines;
mod recent;
mod register;

pub use fault::{AskFault, Done, OpenFault, OrderFault};
pub use files::FILES_IN_MEMORY;
pub use given::{Given, Render};
pub use loaded::NETWORKS_IN_MEMORY;
pub use register::Register;
pub use wgr_orders::{Census, Counted, Order, OrderRefusal};
pub use wgr_schema::{RegisterFault, register_fault};
pub use wgr_tables::Fault;
