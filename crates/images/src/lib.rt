#![tactic(auto)]
// Packets and the images that meet them: known blocks, contradictions. Definitions and theorems only.
