// The file's parts, read as another crate reads them; what is wanted is worked out by hand from document 01's layout.
#![tactic(auto)]

#[cfg(test)]
mod tests;
