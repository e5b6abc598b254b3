//! Tests of the libraries, in a crate of their own: a crate that has tests is proved a second time with them. Each public
//! call that may want memory is made once with ample memory, and what no contract says is shown by its text. Tests of records
//! and of the turn stand in two further crates, so that the three are proved side by side.
#![tactic(auto)]

#[cfg(test)]
mod ends;
#[cfg(test)]
mod namenodes;
#[cfg(test)]
mod plain;
#[cfg(test)]
mod reports;
#[cfg(test)]
mod scripts;
#[cfg(test)]
mod words;
