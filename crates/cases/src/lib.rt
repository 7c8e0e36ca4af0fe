// Document 01's tabled cases: the table is in specs/Cases.antt, its proof in proofs/Cases.antt.
#![tactic(auto)]
