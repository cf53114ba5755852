// Paths and phases: theory only, in specs/. What a path is, that it is decided by computation, what a search finds, rows 10 and 23 of the refusals;
// starts, ends, phases and returns as definitions, and what they mean in paths.
#![tactic(auto)]
