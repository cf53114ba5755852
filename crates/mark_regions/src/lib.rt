// A region entered: refused, or marked.
#![tactic(auto)]

pub mod entrance;
pub mod inner;
pub mod outermost;
