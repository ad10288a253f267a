//! The words, the files and the output of a run.

ghost use Rattle.std.specs.Prelude.{◌≡◌, ◌≢◌, ℕ, ◌≤◌, ◌<◌, List, [], ◌∷◌, All, map, Err, IfOk};
ghost use Rattle.std.specs.String.{string_bytes};
ghost use Rattle.sdg_keep.specs.Faults.{Rises};
ghost use Rattle.sdg_keep.specs.Writes.{Appends, AppendsPrefix};
ghost use Rattle.sdg_keep.specs.Endings.{told, file_asked, ending_of};
ghost use Rattle.sdg_top.specs.Commands.{Text, Request, Ask, AreAlike, request_of, files_of, texts_of, class_limit, other_limit};
ghost use Rattle.sdg_top.specs.Due.{Due, DueForTexts, ReadsAsked, IsAnswer, WritesPrefix, AreTold, AreValid, IsValid, NoFault};
ghost use Rattle.sdg_top.specs.Read.{SaysWhy, AreTexts};

use crate::answer::{Answer, graph_texts, plain_texts, replay_texts, run_texts};
use crate::command::{Command, command_in};
use crate::lines::{too_long, unreadable, usage};
use crate::status::Status;
use sdg_base::{Bytes, KeepError};
use sdg_keep::{Asked, Files, FilesError, Sink, read_files, write_whole};
use std::alloc::{AllocError, Global};

/// The most bytes of a class file.
const CLASS_LIMIT: u64 = 1048576;

/// The most bytes of each other file.
const OTHER_LIMIT: u64 = 16777216;

/// A file of this name with a limit.
fn asked_file(alloc: Global, name: &String, limit: u64) -> Result<Asked, AllocError>
    ensures file { IfOk result (λ asked. file_asked asked ≡ (string_bytes name.now, limit)) }
    ensures limit { IfOk result (λ asked. asked.limit ≡ limit) }
{
    Ok(Asked {
        name: String::from_str(alloc, name.as_str())?,
        limit,
    })
}

/// The file of a command on a class.
fn class_file(alloc: Global, class: &String) -> Result<Vec<Asked>, AllocError>
    ensures files { IfOk result (λ asked. map file_asked asked.items ≡ (string_bytes class.now, class_limit) ∷ []) }
    ensures low { IfOk result (λ asked. All (λ file. file.limit ≤ 16777216) asked.items) }
{
    let mut asked = Vec::new(alloc);
    asked.push(asked_file(alloc, class, CLASS_LIMIT)?)?;
    Ok(asked)
}

/// The files of a command on a class and calls.
fn two_files(alloc: Global, class: &String, calls: &String) -> Result<Vec<Asked>, AllocError>
    ensures files { IfOk result (λ asked. map file_asked asked.items
        ≡ (string_bytes class.now, class_limit) ∷ (string_bytes calls.now, other_limit) ∷ []) }
    ensures low { IfOk result (λ asked. All (λ file. file.limit ≤ 16777216) asked.items) }
{
    let mut asked = class_file(alloc, class)?;
    asked.push(asked_file(alloc, calls, OTHER_LIMIT)?)?;
    Ok(asked)
}

/// The files of a command on a class, calls and a third file.
fn three_files(
    alloc: Global,
    class: &String,
    calls: &String,
    third: &String,
) -> Result<Vec<Asked>, AllocError>
    ensures files { IfOk result (λ asked. map file_asked asked.items
        ≡ (string_bytes class.now, class_limit) ∷ (string_bytes calls.now, other_limit) ∷ (string_bytes third.now, other_limit) ∷ []) }
    ensures low { IfOk result (λ asked. All (λ file. file.limit ≤ 16777216) asked.items) }
{
    let mut asked = two_files(alloc, class, calls)?;
    asked.push(asked_file(alloc, third, OTHER_LIMIT)?)?;
    Ok(asked)
}

/// The files of a command in the order of the words.
fn asked_files(alloc: Global, command: &Command<'_>) -> Result<Vec<Asked>, AllocError>
    ensures files { IfOk result (λ asked. map file_asked asked.items ≡ files_of (request_of command.now)) }
    ensures low { IfOk result (λ asked. All (λ file. file.limit ≤ 16777216) asked.items) }
{
    match *command {
        Command::Run {
            class,
            calls,
            schedule: None,
        } => two_files(alloc, class, calls),
        Command::Run {
            class,
            calls,
            schedule: Some(schedule),
        } => three_files(alloc, class, calls, schedule),
        Command::Plain { class, calls } => two_files(alloc, class, calls),
        Command::Replay {
            class,
            calls,
            history,
        } => three_files(alloc, class, calls, history),
        Command::Graph { class } => class_file(alloc, class),
    }
}

/// The answer that says why files were not all read, unless memory was short.
fn answer_unread(alloc: Global, error: &FilesError) -> Result<Answer, AllocError>
    ensures { IfOk result (λ a. SaysWhy a (ending_of (Err error.now))) }
{
    match error {
        FilesError::Failed(name) => Ok(Answer {
            status: Status::Read,
            text: unreadable(alloc, name.as_bytes())?,
        }),
        FilesError::TooLong(name) => Ok(Answer {
            status: Status::TooLong,
            text: too_long(alloc, name.as_bytes())?,
        }),
        FilesError::Memory => Err(AllocError),
    }
}

/// What the text of a command's one file is due.
fn answer_one(alloc: Global, command: &Command<'_>, class: &[u8]) -> Result<Answer, AllocError>
    requires { AreTexts (request_of command.now) (class.now ∷ []) }
    ensures due { (texts : Request) → AreAlike (request_of command.now) texts → class.now ∷ [] ≡ texts_of texts
        → IfOk result (λ a. DueForTexts texts a.status a.text) }
    ensures complete { (texts : Request) → AreAlike (request_of command.now) texts → class.now ∷ [] ≡ texts_of texts
        → AreValid texts → IfOk result (λ a. a.status ≡ Status.Done) }
{
    match *command {
        Command::Graph { .. } => graph_texts(alloc, class),
        Command::Run { .. } | Command::Plain { .. } | Command::Replay { .. } => unreachable!(),
    }
}

/// What the two texts of a command's files are due.
fn answer_two(
    alloc: Global,
    command: &Command<'_>,
    class: &[u8],
    calls: &[u8],
) -> Result<Answer, AllocError>
    requires { AreTexts (request_of command.now) (class.now ∷ calls.now ∷ []) }
    ensures due { (texts : Request) → AreAlike (request_of command.now) texts → class.now ∷ calls.now ∷ [] ≡ texts_of texts
        → IfOk result (λ a. DueForTexts texts a.status a.text) }
    ensures complete { (texts : Request) → AreAlike (request_of command.now) texts → class.now ∷ calls.now ∷ [] ≡ texts_of texts
        → AreValid texts → IfOk result (λ a. a.status ≡ Status.Done) }
{
    match *command {
        Command::Run { .. } => run_texts(alloc, class, calls, None),
        Command::Plain { .. } => plain_texts(alloc, class, calls),
        Command::Replay { .. } | Command::Graph { .. } => unreachable!(),
    }
}

/// What the three texts of a command's files are due.
fn answer_three(
    alloc: Global,
    command: &Command<'_>,
    class: &[u8],
    calls: &[u8],
    third: &[u8],
) -> Result<Answer, AllocError>
    requires { AreTexts (request_of command.now) (class.now ∷ calls.now ∷ third.now ∷ []) }
    ensures due { (texts : Request) → AreAlike (request_of command.now) texts → class.now ∷ calls.now ∷ third.now ∷ [] ≡ texts_of texts
        → IfOk result (λ a. DueForTexts texts a.status a.text) }
    ensures complete { (texts : Request) → AreAlike (request_of command.now) texts → class.now ∷ calls.now ∷ third.now ∷ [] ≡ texts_of texts
        → AreValid texts → IfOk result (λ a. a.status ≡ Status.Done) }
{
    match *command {
        Command::Run { .. } => run_texts(alloc, class, calls, Some(third)),
        Command::Plain { .. } | Command::Graph { .. } => unreachable!(),
        Command::Replay { .. } => replay_texts(alloc, class, calls, third),
    }
}

/// What the texts of a command's files are due.
fn answer_read(alloc: Global, command: &Command<'_>, texts: &[Bytes]) -> Result<Answer, AllocError>
    requires { AreTexts (request_of command.now) texts.now }
    ensures due { (of : Request) → AreAlike (request_of command.now) of → texts.now ≡ texts_of of
        → IfOk result (λ a. DueForTexts of a.status a.text) }
    ensures complete { (of : Request) → AreAlike (request_of command.now) of → texts.now ≡ texts_of of
        → AreValid of → IfOk result (λ a. a.status ≡ Status.Done) }
{
    match texts {
        [class] => answer_one(alloc, command, class.as_slice()),
        [class, calls] => answer_two(alloc, command, class.as_slice(), calls.as_slice()),
        [class, calls, third] => answer_three(
            alloc,
            command,
            class.as_slice(),
            calls.as_slice(),
            third.as_slice(),
        ),
        _ => unreachable!(),
    }
}

/// Reads the files of a command in their order, and answers what they are due.
fn answer_command<F: Files>(
    alloc: Global,
    files: &mut F,
    command: &Command<'_>,
) -> Result<Answer, AllocError>
    ensures due { (words : List Text) → Ask words (request_of command.now) → IfOk result (λ a. Due words (told F.content F.faults F.reads files.old files.new) a.status a.text) }
    ensures complete { (texts : Request) → AreAlike (request_of command.now) texts → AreTold (F.content files.old) (files_of (request_of command.now)) (texts_of texts)
        → AreValid texts → NoFault (F.faults files.old) (F.faults files.new) → IfOk result (λ a. a.status ≡ Status.Done) }
    ensures reads { (words : List Text) → Ask words (request_of command.now) → ReadsAsked words (told F.content F.faults F.reads files.old files.new) }
    ensures same { (other : List ℕ) → F.content files.new other ≡ F.content files.old other }
    ensures falls { F.faults files.old ≤ F.faults files.new }
{
    let asked = asked_files(alloc, command)?;
    match read_files(alloc, files, &asked) {
        Ok(texts) => answer_read(alloc, command, texts.as_slice()),
        Err(error) => answer_unread(alloc, &error),
    }
}

/// The answer to the words.
fn answer<F: Files>(alloc: Global, words: &[String], files: &mut F) -> Result<Answer, AllocError>
    ensures due { IfOk result (λ a. Due (map string_bytes words.now)
        (told F.content F.faults F.reads files.old files.new) a.status a.text) }
    ensures complete { IsValid (map string_bytes words.now) (F.content files.old)
        → NoFault (F.faults files.old) (F.faults files.new) → IfOk result (λ a. a.status ≡ Status.Done) }
    ensures reads { ReadsAsked (map string_bytes words.now) (told F.content F.faults F.reads files.old files.new) }
    ensures same { (other : List ℕ) → F.content files.new other ≡ F.content files.old other }
    ensures falls { F.faults files.old ≤ F.faults files.new }
{
    match command_in(words) {
        Some(command) => answer_command(alloc, files, &command),
        None => Ok(Answer {
            status: Status::Words,
            text: usage(alloc)?,
        }),
    }
}

/// Writes an answer, and tells how the program ends with it.
fn say<S: Sink>(out: &mut S, answer: &Answer) -> Status
    ensures given { IsAnswer result → (result ≡ answer.now.status) × Appends (S.written out.old) (S.written out.new) answer.now.text }
    ensures prefix { AppendsPrefix (S.written out.old) (S.written out.new) answer.now.text }
    ensures fault { result ≡ Status.Write → answer.now.status ≢ Status.Write → Rises (S.faults out.old) (S.faults out.new) }
    ensures cause { S.faults out.old < S.faults out.new → result ≡ Status.Write }
    ensures falls { S.faults out.old ≤ S.faults out.new }
{
    match write_whole(out, answer.text.as_slice()) {
        Ok(()) => answer.status,
        Err(KeepError::Failed) => Status::Write,
        Err(KeepError::Memory) => Status::Memory,
    }
}

/// Runs the program on its words, which leave out the program's name, over files and an output.
///
/// The commands today are `run CLASS CALLS`, `run CLASS CALLS SCHEDULE`, `plain CLASS CALLS`,
/// `replay CLASS CALLS HISTORY` and `graph CLASS`.
pub fn java2sdg<F: Files, S: Sink>(
    alloc: Global,
    words: &[String],
    files: &mut F,
    out: &mut S,
) -> Status
    // An answer is the one that is due, and all of its text is written and nothing else. For `Done`
    // `run` gives the report of the world that the schedule fixes: one result for each call, those of
    // the annotated source stepped in the history's order, and of plain Java where calls do not
    // interleave; `plain` gives how each call ends in plain Java; `replay` gives how calls end in the
    // annotated source stepped along the history; and `graph` gives the graph of the class.
    ensures answers { IsAnswer result → (text : List ℕ)
        × Due (map string_bytes words.now) (told F.content F.faults F.reads files.old files.new) result text
        × Appends (S.written out.old) (S.written out.new) text }
    // Valid input, over files and an output without a fault, is done or wants memory.
    ensures complete { IsValid (map string_bytes words.now) (F.content files.old)
        → NoFault (F.faults files.old) (F.faults files.new) → NoFault (S.faults out.old) (S.faults out.new)
        → result ≢ Status.Memory → result ≡ Status.Done }

    // The files that the words name are read, and no others: in the order of the words, the next one
    // once the one before it was read to its end, and with at most one byte above its limit asked for.
    ensures reads { ReadsAsked (map string_bytes words.now) (told F.content F.faults F.reads files.old files.new) }
    // A fault of the files is told, unless a fault of the output or want of memory is.
    ensures read { result ≡ Status.Read → Rises (F.faults files.old) (F.faults files.new) }
    ensures unread { F.faults files.old < F.faults files.new → IsAnswer result → result ≡ Status.Read }
    // A fault of the output is told, and nothing else is told so.
    ensures write { result ≡ Status.Write → Rises (S.faults out.old) (S.faults out.new) }
    ensures unwritten { S.faults out.old < S.faults out.new → result ≡ Status.Write }
    // No content changes, and no count falls.
    ensures same { (other : List ℕ) → F.content files.new other ≡ F.content files.old other }
    ensures files_fall_never { F.faults files.old ≤ F.faults files.new }
    ensures output_falls_never { S.faults out.old ≤ S.faults out.new }
    // What such a fault or want of memory cuts short is a prefix of what was due.
    ensures prefix { WritesPrefix (map string_bytes words.now) (told F.content F.faults F.reads files.old files.new)
        (S.written out.old) (S.written out.new) }
{
    match answer(alloc, words, files) {
        Ok(answer) => say(out, &answer),
        Err(AllocError) => Status::Memory,
    }
}
