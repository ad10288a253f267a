//! What is said of a row, by its kind.

use crate::front;
use crate::graphs::read;
use crate::lines::{calls, events, schedule};
use crate::listing::code;
use crate::runs::{Named, run};
use std::alloc::{AllocError, Global};

/// What is said of a row, which is its kind and its text.
pub(crate) fn said(alloc: Global, files: &[Named], row: &str) -> Result<String, AllocError> {
    let (kind, text) = row.split_once(' ').unwrap_or((row, ""));
    match kind {
        "java2sdg" => run(alloc, files, text, true),
        "ending" => run(alloc, files, text, false),
        "code" => code(alloc, text),
        "read" => read(alloc, text),
        "calls" => calls(alloc, text),
        "schedule" => schedule(alloc, text),
        "events" => events(alloc, text),
        _ => front::said(alloc, kind, text),
    }
}
