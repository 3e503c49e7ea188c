// `lists`: definitions and laws on the lists that loops fill (`front`), search (`first`, `any`) and fold (`turns`), and what it is for a contract
// to decide its answer (`Decides`). No functions.
#![tactic(auto)]
