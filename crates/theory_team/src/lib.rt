// The team rules: how a team of threads runs a region, and when two threads stand at two nodes at once.
// Theory alone, in specs/ and proofs/. What a reader must believe: State, Step and Run; beside them Locks, the rule of 02, Note 9, which changes
// none of these, Meets, of runs that need not finish, and SomeLocks, where only some criticals lock. Laws and SectionLaws hold first consequences.
#![tactic(auto)]
