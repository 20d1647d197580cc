#![tactic(auto)]

// The demands, over the outcomes that the contracts of the calls name, and K1 to K13. Theorems alone; they stand in specs/.
