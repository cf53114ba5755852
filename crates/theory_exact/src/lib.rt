// The theorem: the answer for two nodes is 0 exactly when some finished run of some team has two threads at them in one state.
// Of runs that need not finish the same is shown of all rules but "no common end"; and which locks can be dropped.
// Theory alone, in specs/ and proofs/, over the crates `theory_answers` and `theory_team`. The statements are in Answered and Exact, of any run in Barred, Unmet
// and Met, of locks in Synchronized, Droppable and Dropped; the other files are steps of the proofs.
#![tactic(auto)]
