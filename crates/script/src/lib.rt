// Reading hall scripts: a line is a command, or blank.
#![tactic(auto)]

mod bytes;
mod command;
mod expected;
mod keyword;
mod line;
mod line_words;
mod numbers;
mod pieces;
mod processor;
mod reading;
mod request;
mod shown;

pub use command::Command;
pub use expected::Expected;
pub use line::{CommandLine, command_line, line_end, read_line, read_line_for};
pub use processor::Processor;
pub use request::Request;
pub use shown::reads_back;
