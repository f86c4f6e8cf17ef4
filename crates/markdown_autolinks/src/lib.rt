//! Bare addresses in texts: web addresses, and addresses of mail; and events in which they are links.
#![tactic(auto)]

pub mod adapter;
pub mod address;
mod bytes;
mod host;
pub mod laws;
mod mail;
mod runs;
mod tail;
mod web;

pub use adapter::Autolinks;
pub use address::{Address, AddressForm, first_address};
