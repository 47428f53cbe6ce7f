// Opening a store, and its steps.
#![tactic(auto)]

pub mod open;
mod operate;
pub mod step;
mod walking;
