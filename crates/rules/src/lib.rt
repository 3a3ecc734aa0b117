//! The rules of the switch: what it is told, what it answers and why it refuses, and what holds of every run.
#![tactic(auto)]

mod arbiter;
mod command;
mod description;
mod guard;
mod refusal;
mod register;
mod route;
#[cfg(test)]
mod tests;
mod theorems;
mod wiring;

pub use arbiter::Arbiter;
pub use command::Command;
pub use description::Description;
pub use guard::{ARM, Effect, Guard, Stance, TRY};
pub use refusal::Refusal;
pub use register::{Register, UNLIMITED};
pub use route::Route;
pub use theorems::{
    cases_are_answered, checks_are_in_order, each_list_has_one_run, runs_are_lawful,
};
pub use wiring::{Direction, Wiring};
