//! A bank of ten queues of words: the interface, its meaning, and the ring bank.
#![tactic(auto)]

mod bank;
mod ring;
#[cfg(test)]
mod tests;

pub use bank::{Bank, Fault};
pub use ring::Ring;
