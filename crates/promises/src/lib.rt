// What 01 promises of a settle, as theorems of its definition. They stand in specs/; nothing runs.

#![tactic(auto)]
