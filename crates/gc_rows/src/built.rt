//! Worked rows whose calls stand beside their replies, and may be made many times: the lines of the script are counted here.

use crate::row::Row;
use std::alloc::{AllocError, Global};
use std::fmt::Write;
use std::process::Abort;
use std::sync::Wait;
use std::test::Fail;
use std::thread::Threads;

/// Calls that are made so many times one behind another, each with its reply.
pub type Calls<'a> = (u32, &'a [(&'a str, &'a str)]);

/// A worked row: the words, the lines before the first call, the calls, and the lines of the reports.
#[derive(Clone, Copy)]
pub struct Built<'a> {
    pub name: &'a str,
    pub words: &'a [&'a str],
    pub head: &'a str,
    pub calls: &'a [Calls<'a>],
    pub reports: &'a str,
}

impl<'a> Built<'a> {
    /// Plays the script, and compares what comes of it.
    pub fn check<R: Abort + AllocGlobal + Threads + Wait + Sync>(
        &self,
        rt: &R,
    ) -> Result<(), Fail> {
        let (script, output) = self.script_and_output(rt.alloc())?;
        let row = Row::plays(self.name, script.as_str(), output.as_str());
        row.with_words(self.words).check(rt)
    }

    /// The script, and what it prints.
    fn script_and_output(&self, alloc: Global) -> Result<(String, String), AllocError> {
        let mut script = String::new(alloc);
        let mut output = String::new(alloc);
        script.push_str(self.head)?;
        let mut number = self.head.lines().count().saturating_add(1);
        for (times, lines) in self.calls {
            for _ in 0..*times {
                for (call, reply) in *lines {
                    writeln!(script, "{call}")?;
                    writeln!(output, "{number} {reply}")?;
                    number = number.saturating_add(1);
                }
            }
        }
        output.push_str(self.reports)?;
        Ok((script, output))
    }
}
