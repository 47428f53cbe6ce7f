// Random schedules, tried against a sorted map: what a million steps answer is what the map answers, one decided transaction
// after another.
#![tactic(auto)]

pub mod choice;
pub mod clients;
pub mod driver;
pub mod map;
pub mod profile;
pub mod rng;
pub mod step;
pub mod world;
