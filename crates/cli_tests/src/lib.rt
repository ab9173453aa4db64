//! Tests of the top call and of the words of the command line, by whole streams of bytes. They stand
//! apart from the crate that they test, since a crate is proved a second time with its tests.
#![tactic(auto)]

#[cfg(test)]
mod tests;
