//! What an operator is shown of a register and of a running service, as text.
//!
//! [`metrics_text`] writes figures as lines of a Prometheus text file, and [`figures_of`] counts a register's
//! entries for it. [`show_text`] has the tenants with their tokens and networks, as tables for a person or as
//! JSON (RFC 8259).
#![tactic(auto)]

mod columns;
mod entries;
mod figures;
mod metrics;
mod owned;
mod show;
mod shown;
mod table;
#[cfg(test)]
mod tests;

pub use figures::{Figures, figures_of};
pub use metrics::metrics_text;
pub use show::show_text;
