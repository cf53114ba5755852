// The tables that the marking works on, from the bytes of a chart that rows 1 to 9 of the refusals let pass: the stops and barriers of a region and
// where its constructs begin and end (`load`), what is left where the region is a parallel's (`cut`), its edges in rows and parts (`fill`), and
// all of it with the places of the edges (`tables`); and, for the answers, the nodes that no claim may name (`closed`).
#![tactic(auto)]

pub mod closed;
pub mod cut;
pub mod fill;
pub mod load;
pub mod tables;
