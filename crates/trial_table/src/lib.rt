// Document 01's trial echoes: specs/Table.antt.
#![tactic(auto)]
