//! The words of an operator's orders and readings, parsed into types.
//!
//! `wgr_command_line` parses the positions of the words of a command. Here each field is parsed by its form:
//! [`order_of`] makes an operator's order from all its fields and the token, and [`read_endpoint_field`]
//! and [`read_whole_field`] parse one. A [`WordFault`] names the first field that is malformed.
//!
//! An order may also come as one line of text: [`read_first_line`] takes it from an input, [`order_in`] makes
//! the order, and [`write_line`] writes such a line. So may a reading, which [`reading_in`] makes.
#![tactic(auto)]

mod endpoint;
mod field;
mod input;
mod laws;
mod line;
mod numbers;
mod order;
mod reading;
mod sent;
mod words;
mod written;

pub use field::{WordFault, WordField, read_endpoint_field, read_whole_field};
pub use input::read_first_line;
pub use laws::{readings_are_no_orders, sent_as_asked, written_words_are_read};
pub use line::{LINE_MOST, LineFault, OrderLine, order_in, read_line};
pub use order::order_of;
pub use reading::{Reading, reading_in};
pub use sent::may_be_sent;
pub use words::{NetworkWords, OrderWords};
pub use written::{is_line, write_line};
