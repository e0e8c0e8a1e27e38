// Document 01's tower file: its reader and its writer.
#![tactic(auto)]

pub mod file;
