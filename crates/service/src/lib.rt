// The service behind a mast: document 01's seven calls on a state that the caller lends and that lies wherever the
// caller has it. Every call takes any value of its types; specs/Held of slots says which state of document 01's machine
// each value of the cells stands for.
#![tactic(auto)]

pub mod answers;
pub mod changes;
