#![tactic(auto)]
// What is written is read back, and what is read is written back; and a sample bundle. Definitions and theorems only.
