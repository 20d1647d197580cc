// Earliest deadline first, and why it serves every job of a core that fits: the demand of a core's tasks, rows that serve
// them, and rows that repeat. It has no code; the definitions and theorems stand in specs/.
#![tactic(auto)]
