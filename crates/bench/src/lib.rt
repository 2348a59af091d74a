// The bench table: 01's bench shots as computations of the definitions. It stands in specs/; nothing runs.

#![tactic(auto)]
