// Laws alone, with no function: the largest record is accepted (SPECIFICATION.md, 16.2), the row of the proof table that does not compute.
#![tactic(auto)]
