//! Rows of texts, each with what is said of it. Standard input has the rows; what is printed is each row that does not
//! hold, and how many do.
#![tactic(auto)]

mod front;
mod graphs;
mod groups;
mod lines;
mod listing;
mod runs;
mod said;
mod texts;
mod tokens;

use runs::Named;
use std::alloc::{AllocError, Global};
use std::io;
use std::io::{BufRead, BufReader};

/// The rows so far.
#[derive(Drop)]
struct Rows {
    /// The files that the lines before have set.
    files: Vec<Named>,
    /// The kind and the text of the last row.
    row: String,
    held: u32,
}

impl Rows {
    /// Takes in a line that says nothing of a row. An empty line and a comment are skipped.
    fn take(&mut self, alloc: Global, line: &str) -> Result<(), AllocError> {
        if line.is_empty() || line.starts_with("#") {
            return Ok(());
        }
        match line.strip_prefix("file ") {
            Some(file) => runs::set_file(alloc, &mut self.files, file),
            None => {
                self.row = String::from_str(alloc, line)?;
                Ok(())
            }
        }
    }

    /// Takes in what is wanted of the last row, and answers what is said of it where that is another text.
    fn judge(&mut self, alloc: Global, wanted: &str) -> Result<Option<String>, AllocError> {
        let found = said::said(alloc, &self.files, self.row.as_str())?;
        if found.as_str() == wanted {
            self.held = self.held.saturating_add(1);
            return Ok(None);
        }
        Ok(Some(found))
    }
}

fn main(rt: HostRuntime) -> io::Result<()> {
    let alloc = rt.alloc();
    let mut rows = Rows {
        files: Vec::new(alloc),
        row: String::new(alloc),
        held: 0,
    };
    for line in BufReader::new(alloc, rt.reader())?.lines(alloc) {
        let line = line?;
        match line.as_str().strip_prefix("= ") {
            None => rows.take(alloc, line.as_str())?,
            Some(wanted) => {
                if let Some(found) = rows.judge(alloc, wanted)? {
                    println!(rt; "{}\n  says {found}\n  and not {wanted}", rows.row)?;
                }
            }
        }
    }
    println!(rt; "{} rows hold", rows.held)
}
