// What the pair rules read of a node, as masks: its starts and ends, which the searches find, and the constructs that it holds, made in one
// pass over the constructs (`chains`, with `members` and `peers`) and one over the nodes (`places`); the constructs of each rule's kind (`kinds`);
// and what they read of a team of a known size (`sizes`).
#![tactic(auto)]

pub mod chains;
pub mod held;
pub mod kinds;
pub mod mask_table;
pub mod members;
pub mod passing;
pub mod peers;
pub mod places;
pub mod sizes;
