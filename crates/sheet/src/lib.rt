#![tactic(auto)]
// The sheet of examples, P1 to P11: one table, and one statement over it in the words of the calls' contracts. No code.
