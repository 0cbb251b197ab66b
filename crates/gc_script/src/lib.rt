//! The script language.
//!
//! A script is a text of lines, and a line is cut into words at single spaces. The first line names the
//! version, the second says how many mutators there are, 1 to 8, the type lines declare types by a name and a
//! shape, and each further line is a call of a mutator. Each kind of word and of line has its tests in a fixed
//! order, and the first test that fails in the first bad line is the script's fault. The reader goes over the
//! bytes line by line, and looks the names of types up by their hashes; its contract is the grammar in specs/.
//! The writer gives a script in its one spelling: it builds each line in a fixed room and hands it on as one
//! piece. What both do with a call line is said by one table of the calls: how a call word is spelled, the
//! kinds of the words behind it, and the call that it makes of them. A Script is one that some text is read
//! as: what it is written as is read as it.
//!
//! The generator makes a script of any number of rounds up to 100,000, as a workload: four mutators keep a cache
//! of requests each, and in each round one of them makes a request and looks into the cache of its neighbour.
#![tactic(auto)]

mod call_line;
mod calls;
mod cut;
mod fault;
#[cfg(test)]
mod faulty;
mod generate;
#[cfg(test)]
mod generate_tests;
mod heading;
mod laws;
mod lines;
mod names;
mod preamble;
mod read;
mod script;
#[cfg(test)]
mod sizes;
mod spelling;
#[cfg(test)]
mod tests;
mod words;
mod write;
#[cfg(test)]
mod write_tests;

pub use fault::ScriptFault;
pub use generate::make_script;
pub use heading::Heading;
pub use laws::{
    a_written_text_gives_its_script, accepted_bytes_are_written_back, each_script_is_read_back,
    texts_of_two_scripts_differ,
};
pub use read::read_script;
pub use script::Script;
pub use write::write_script;
