// What a step is and what comes of it; its rules are in specs/.
#![tactic(auto)]

pub mod outcome;
pub mod refusal;
pub mod sizes;
pub mod step;
