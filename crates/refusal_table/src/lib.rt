// Tables of refusals: definitions (specs/Table.antt) and a law of theirs, and no code.
#![tactic(auto)]
