// A crate of laws only: they stand in specs/.

#![tactic(auto)]
