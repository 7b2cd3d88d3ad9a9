//! What actors share where a run of a scenario begins: the files, guests and vhosts that it declares, and the first
//! queue table, with its programs and flows.
#![tactic(auto)]

mod declared;
mod numbered;
mod opening;
#[cfg(test)]
mod tests;

pub use opening::open;
