// The demands (SPECIFICATION.md, 10 and 15), stated together and proved of every call: specs/Lawful.antt, specs/Demands.antt,
// proofs/Demands.antt. There is no code.
#![tactic(auto)]
