// One server's part of the memory: what it stores, checks, locks and hands out.
#![tactic(auto)]

pub mod check;
pub mod hand_out;
pub mod lock;
pub mod object;
pub mod place;
pub mod store;
