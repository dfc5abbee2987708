// The words of the tools: texts, the names of files and of refusals, the words of a command line.
#![tactic(auto)]

pub mod filenames;
pub mod options;
pub mod refusals;
pub mod texts;
