//! The answers of one line.

ghost use Rattle.std.specs.Prelude.{◌≡◌, ◌++◌, IfOk, codes};
ghost use Rattle.sdg_top.specs.Answers as answers;

use sdg_base::Bytes;
use sqlite_items::Items;
use std::alloc::{AllocError, Global};

/// A text whose lines have rules.
#[derive(Clone, Copy, Debug, PartialEq, Eq)]
pub enum InputText {
    Calls,
    Schedule,
    History,
}

/// The answer to words that are no command with its files.
#[tactic(auto, unfolding(crate::specs::Answers::usage_line))]
pub fn usage(alloc: Global) -> Result<Bytes, AllocError>
    ensures { IfOk result (λ text. text ≡ answers.usage_line) }
{
    Items::from_slice(alloc, b"usage: java2sdg COMMAND FILES\n")
}

/// The answer to a class that a phase refuses. Rows and columns count from 1.
#[tactic(auto, unfolding(crate::specs::Answers::class_refused_line))]
pub fn class_refused(alloc: Global, phase: &str, row: u32, column: u32) -> Result<Bytes, AllocError>
    ensures { IfOk result (λ text. text ≡ answers.class_refused_line phase.now row column) }
{
    let text = format!(in alloc; "class refused: {phase} at {row}:{column}\n")?;
    Items::from_slice(alloc, text.as_bytes())
}

/// The answer to a text with a line that breaks a rule. Rows count from 1.
#[tactic(auto, unfolding(crate::specs::Answers::text_refused_line))]
pub fn text_refused(alloc: Global, text: InputText, row: u32, rule: u8) -> Result<Bytes, AllocError>
    ensures { IfOk result (λ bytes. bytes ≡ answers.text_refused_line text row rule) }
{
    let name = text_name(text);
    let answer = format!(in alloc; "{name} refused: line {row} rule {rule}\n")?;
    Items::from_slice(alloc, answer.as_bytes())
}

fn text_name(text: InputText) -> &'static str
    ensures { result.now ≡ answers.text_name text }
{
    match text {
        InputText::Calls => "calls",
        InputText::Schedule => "schedule",
        InputText::History => "history",
    }
}

/// The answer to a file that cannot be read.
#[tactic(auto, unfolding(crate::specs::Answers::unreadable_line))]
pub fn unreadable(alloc: Global, name: &[u8]) -> Result<Bytes, AllocError>
    ensures { IfOk result (λ text. text ≡ answers.unreadable_line name.now) }
{
    named(alloc, b"cannot read: ", name)
}

/// The answer to a file with more bytes than its limit.
#[tactic(auto, unfolding(crate::specs::Answers::too_long_line))]
pub fn too_long(alloc: Global, name: &[u8]) -> Result<Bytes, AllocError>
    ensures { IfOk result (λ text. text ≡ answers.too_long_line name.now) }
{
    named(alloc, b"too long: ", name)
}

fn named(alloc: Global, start: &[u8], name: &[u8]) -> Result<Bytes, AllocError>
    ensures { IfOk result (λ text. text ≡ start.now ++ (name.now ++ codes "\n")) }
{
    let mut text = Vec::from_slice(alloc, start)?;
    text.extend_from_slice(name)?;
    text.extend_from_slice(b"\n")?;
    Ok(Items::from_vec(text))
}
