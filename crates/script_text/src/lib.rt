//! The script language: a text of commands for two namenodes, read as the calls of its clients.
#![tactic(auto)]

pub mod command;
mod command_word;
mod draws;
pub mod fault;
mod generated;
pub mod generator;
mod headings;
pub mod laws;
mod line;
mod numbers;
pub mod reader;
pub mod script;
mod side_commands;
mod words;

pub use command::{Command, Pages, PagesKind};
pub use fault::{FaultKind, ReadScriptFault, ScriptFault};
pub use generator::generate;
pub use reader::read;
pub use script::{Script, ScriptLine, Section};
