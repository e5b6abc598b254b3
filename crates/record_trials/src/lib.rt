//! Tests of snapshots' tables, of change records and of the table of rows, in a crate of their own, as in `trials`.
#![tactic(auto)]

#[cfg(test)]
mod dir_rows;
#[cfg(test)]
mod file_rows;
#[cfg(test)]
mod snapshots;
#[cfg(test)]
mod table_fits;
#[cfg(test)]
mod table_print;
#[cfg(test)]
mod table_rows;
#[cfg(test)]
mod table_steps;
