// What a waiting operation writes: insert, delete and migrate, their changes carried up; and the whole work step.
#![tactic(auto)]

pub mod delete;
pub mod grow;
pub mod insert;
pub mod last;
pub mod leaf;
pub mod level;
pub mod migrate;
pub mod neighbour;
pub mod rise;
pub mod single;
pub mod split;
pub mod up;
pub mod work;
