// One client's part of the memory, and what a client does between two messages.
#![tactic(auto)]

pub mod answer;
pub mod commit;
pub mod copies;
pub mod enter;
pub mod fetched;
pub mod fits;
pub mod items;
pub mod life;
pub mod lookup;
pub mod own;
pub mod part;
pub mod range;
pub mod record;
pub mod renew;
pub mod used;
pub mod vector;
