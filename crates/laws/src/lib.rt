#![tactic(auto)]

// Mathematics that knows nothing of tasks: lists, sums, counts, searches and multiples. It has no code; the
// definitions and laws stand in specs/.
