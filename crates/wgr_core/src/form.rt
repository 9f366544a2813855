//! The forms of a configuration file.

/// The form of a configuration file.
#[derive(Clone, Copy, Debug, Drop, PartialEq, Eq)]
pub enum Form {
    /// What `wg setconf` reads (wg(8)).
    Wg,
    /// What `wg-quick up` reads, with the interface's own address (wg-quick(8)).
    Quick,
}
