// Tables of whole numbers, defined in specs/Table.antt; their laws are proved in proofs/Table.antt.
#![tactic(auto)]
