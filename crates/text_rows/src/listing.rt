//! The flat code of a class as a listing.

use crate::runs::{Named, set_file, written};
use std::alloc::{AllocError, Global};

/// Adds the instructions of a method, with a blank before each operand.
fn add_code(line: &mut String, code: &str) -> Result<(), AllocError> {
    let mut after_bracket = false;
    for letter in code.chars() {
        match letter {
            ']' => after_bracket = true,
            ',' => {
                line.push_str(if after_bracket { "; " } else { " " })?;
                after_bracket = false;
            }
            '[' | '"' => {}
            other => line.push(other)?,
        }
    }
    Ok(())
}

/// The code of each method of a class whose fields are the partitioned table `t` and the partial counter `c`, with these
/// methods, as `graph` prints it; or what else is printed.
pub(crate) fn code(alloc: Global, text: &str) -> Result<String, AllocError> {
    let mut files: Vec<Named> = Vec::new(alloc);
    let file = format!(in alloc;
        "C class A {{ @Partitioned Table t = new Table(); @Partial Counter c = new Counter(); {text} }}"
    )?;
    set_file(alloc, &mut files, file.as_str())?;
    let graph = written(alloc, &files, "graph C")?;
    let mut line = String::new(alloc);
    for part in graph.as_str().split("\"code\":[").skip(1) {
        if !line.is_empty() {
            line.push_str(" | ")?;
        }
        let code = part.split("],\"kind\"").next().unwrap_or(part);
        add_code(&mut line, code)?;
    }
    Ok(if line.is_empty() { graph } else { line })
}
