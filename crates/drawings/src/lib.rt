// Drawings, and why they are the tables that pass the check, why exactly the plans that pass have one, what the rule of the
// earliest due job works out, and that a drawing's table serves for ever. It has no code; the definitions and theorems
// stand in specs/.
#![tactic(auto)]
