#![tactic(auto)]
// The field of two elements: rows, the reduced form, table additions, inverses. Definitions and theorems only.
