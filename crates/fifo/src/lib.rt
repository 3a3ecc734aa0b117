//! First-in first-out rows over lent slots, for every element that can be copied.
#![tactic(auto)]

mod cursor;
pub mod row;
#[cfg(test)]
mod tests;
mod tray;

pub use cursor::{Cursor, Full};
pub use tray::Tray;
