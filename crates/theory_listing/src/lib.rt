// Charts from a directive listing (02, Note 2): the grammar, the chart that a listing means, and that every chart written is admitted.
// Definitions and lemmas only, in specs/ and proofs/.
#![tactic(auto)]
