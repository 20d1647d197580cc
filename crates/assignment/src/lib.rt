#![tactic(auto)]

// The assignment problem: items to be kept on cores at levels, or refused, at the least cost. Of a core nothing is known but which
// patterns of levels it admits and what each costs; from any table of one core's least values, the partition of the items over the cores
// and the choice of those to keep find the best plan. It has no code; the definitions and theorems stand in specs/.
