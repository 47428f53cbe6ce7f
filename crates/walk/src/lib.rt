// The walk of a plan over what its client has: questions, the way down, what only reads, and the slots that a change takes.
#![tactic(auto)]

pub mod down;
pub mod found;
pub mod look;
pub mod lookup;
pub mod operation;
pub mod search;
pub mod seek;
pub mod take;
pub mod walk;
