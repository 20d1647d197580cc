#![tactic(auto)]

// How far penalties can move the least cost. It has no code; the definitions and theorems stand in specs/.
