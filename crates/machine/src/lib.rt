// A crate of definitions, starred values and worked runs: they stand in specs/.

#![tactic(auto)]
