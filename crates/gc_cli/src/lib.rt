//! The program: from the words of the command line and a script's bytes to the printed replies.
//!
//! `moar_gc` is the top call. It reads the words with their options, reads the source to its end, reads the
//! script, plays its lines on the heap, and writes each reply and, where an option asks for them, the reports of
//! the collections. Its contract says what was played and printed where the status is Done, and for every other
//! status its cause.
//!
//! `play` and `drill` play the lines on a heap of one thread, a `Solo`, which is handed back: it stands for the very
//! history whose replies were printed. `play_lines` is that part alone. `run` plays them with a worker for each mutator on a
//! heap that they share under one lock; what is handed back is the `Journal`, which has that history.
#![tactic(auto)]

mod command;
mod input;
mod modes;
mod opts;
mod output;
mod play;
mod replies;
mod run;
mod status;
mod summary;
mod text;
mod top;

pub use command::Request;
pub use modes::play_bytes;
pub use opts::Opts;
pub use output::write_reports;
pub use play::play_lines;
pub use replies::Replies;
pub use status::{Left, Outcome, Status, write_status};
pub use top::moar_gc;
