#![tactic(auto)]
// The Method of Four Russians on lists of rows: how far an elimination has come, a window's search, the Gray code, the table. Definitions and theorems only.
