//! The register in two files of the system: it is found, made or migrated there, does an order, and is closed.
//!
//! Each function takes what the files held as they were opened (`start`), which a contract can name and
//! the program can't know, and gives the files back as they were closed. So the contracts say what is in
//! the files before and after, whatever they held. A clause about a connection that isn't given back would
//! only say that there is one, and any connection whose disk isn't clean would meet it.
#![tactic(auto)]

mod database;
mod laws;
mod opening;
mod order;

pub use database::Closed;
pub use laws::{
    closed_is_in_files, copies_have_all, found_is_reported, honest_files_are_clean, killed,
    made_is_in_files, migrated_is_in_files, next_finds_the_last, orders_end_in_files,
    unknown_is_empty,
};
pub use opening::{Unopened, close, make_register, migrate_register, open_register};
pub use order::operate;
