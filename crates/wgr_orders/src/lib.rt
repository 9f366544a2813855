//! What an operator orders, and when it is refused.
#![tactic(auto)]

mod admit;
mod census;
mod entries;
mod forms;
mod listing;
mod look;
mod order;
mod overlap;
mod refusal;

pub use admit::{admit_network, checked_pool, is_full, new_id};
pub use census::{Census, Counted, Granted};
pub use entries::{NetworkEntry, Tenant, Token};
pub use forms::{digest_has_form, name_has_form, settings_have_forms};
pub use listing::ByName;
pub use look::{is_same, place_of, unused_id};
pub use order::{Order, Settings};
pub use refusal::{OrderFault, OrderRefusal};
pub use wgr_model::Right;
