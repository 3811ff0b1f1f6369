#![tactic(auto)]

// No code: what is promised over several calls, and the worked runs P1 to P12 as one table.
