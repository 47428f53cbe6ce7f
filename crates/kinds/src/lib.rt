// The kinds of steps but work, what work fetches, and the refusals.
#![tactic(auto)]

pub mod abort;
pub mod apply;
pub mod change;
pub mod commit;
pub mod course;
pub mod fetch;
pub mod findings;
pub mod fits;
pub mod hand;
pub mod items;
pub mod judge;
pub mod known;
pub mod lack;
pub mod life;
pub mod locks;
pub mod loss;
pub mod prepare;
pub mod refusal;
pub mod servers;
pub mod sizes;
pub mod whole;
pub mod writes;
