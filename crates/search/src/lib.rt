// A search from up to 64 nodes at once (`search`): masks of the sources, and the fewest edges (`nearest`). The places of the nodes' edges are found
// (`places`), the edges are parted (`edges`), the sources' bits go along their edges once (`sources`, `telling`), and masks and levels are closed
// along the others by sweeps until one is quiet (`close`, `levels`); where that takes long, masks by nodes that wait (`waiting`) and levels by one
// search, breadth first (`breadth`). Why that suffices is in specs/.
#![tactic(auto)]

pub mod breadth;
pub mod close;
pub mod edges;
pub mod levels;
pub mod nearest;
pub mod places;
pub mod search;
pub mod sources;
pub mod telling;
pub mod together;
pub mod waiting;
