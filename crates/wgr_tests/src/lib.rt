//! Tests over the public calls of the libraries: that calls succeed, and what no contract says. The
//! expected values are written by hand.
//!
//! A test is a table of lines that one function runs. A malformed address, number and so on in a
//! table ends the test.
#![tactic(auto)]

#[cfg(test)]
mod conf;
#[cfg(test)]
mod disks;
#[cfg(test)]
mod dumps;
#[cfg(test)]
mod earlier;
#[cfg(test)]
mod fields;
#[cfg(test)]
mod fixtures;
#[cfg(test)]
mod later;
#[cfg(test)]
mod network;
#[cfg(test)]
mod order;
#[cfg(test)]
mod pool;
#[cfg(test)]
mod register;
#[cfg(test)]
mod rows;
#[cfg(test)]
mod shown;
#[cfg(test)]
mod size;
#[cfg(test)]
mod store;
#[cfg(test)]
mod tables;
#[cfg(test)]
mod versions;
