// Laws that the kit's library lacks: truth values, ranges of numbers and counts over them, masks of bits, lists that are stored into.
// Definitions and lemmas only, in specs/.
#![tactic(auto)]
