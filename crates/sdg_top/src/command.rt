//! The commands of the program, and the words that name them.

ghost use Rattle.std.specs.Prelude.{◌≡◌, ◌↔◌, [], ◌∷◌, IsTrue, MatchOption, map};
ghost use Rattle.std.specs.String.{string_bytes};
ghost use Rattle.sdg_top.specs.Commands.{Ask, AskForNothing, request_of};

/// What the program is asked for, with the names of its files.
#[derive(Clone, Copy)]
pub(crate) enum Command<'a> {
    /// Calls run on the graph of their class, perhaps under a schedule.
    Run {
        class: &'a String,
        calls: &'a String,
        schedule: Option<&'a String>,
    },
    /// Calls run one after the other, as plain Java.
    Plain {
        class: &'a String,
        calls: &'a String,
    },
    /// Calls run along a history.
    Replay {
        class: &'a String,
        calls: &'a String,
        history: &'a String,
    },
    /// The graph of a class.
    Graph {
        class: &'a String,
    },
}

/// Whether a word is this name.
fn is_named(word: &String, name: &str) -> bool
    ensures { IsTrue result ↔ (string_bytes word.now ≡ name.now) }
{
    word.as_str() == name
}

/// The command of two words.
fn of_two<'a>(name: &String, class: &'a String) -> Option<Command<'a>>
    ensures { MatchOption result (AskForNothing (string_bytes name.now ∷ string_bytes class.now ∷ []))
        (λ command. Ask (string_bytes name.now ∷ string_bytes class.now ∷ []) (request_of command)) }
{
    if is_named(name, "graph") {
        Some(Command::Graph { class })
    } else {
        None
    }
}

/// The command of three words.
fn of_three<'a>(name: &String, class: &'a String, calls: &'a String) -> Option<Command<'a>>
    ensures { MatchOption result (AskForNothing (string_bytes name.now ∷ string_bytes class.now ∷ string_bytes calls.now ∷ []))
        (λ command. Ask (string_bytes name.now ∷ string_bytes class.now ∷ string_bytes calls.now ∷ []) (request_of command)) }
{
    if is_named(name, "run") {
        Some(Command::Run {
            class,
            calls,
            schedule: None,
        })
    } else if is_named(name, "plain") {
        Some(Command::Plain { class, calls })
    } else {
        None
    }
}

/// The command of four words.
fn of_four<'a>(
    name: &String,
    class: &'a String,
    calls: &'a String,
    third: &'a String,
) -> Option<Command<'a>>
    ensures { MatchOption result (AskForNothing (string_bytes name.now ∷ string_bytes class.now ∷ string_bytes calls.now ∷ string_bytes third.now ∷ []))
        (λ command. Ask (string_bytes name.now ∷ string_bytes class.now ∷ string_bytes calls.now ∷ string_bytes third.now ∷ []) (request_of command)) }
{
    if is_named(name, "run") {
        Some(Command::Run {
            class,
            calls,
            schedule: Some(third),
        })
    } else if is_named(name, "replay") {
        Some(Command::Replay {
            class,
            calls,
            history: third,
        })
    } else {
        None
    }
}

/// The command that the words are: `run CLASS CALLS`, `run CLASS CALLS SCHEDULE`, `plain CLASS CALLS`,
/// `replay CLASS CALLS HISTORY` or `graph CLASS`.
pub(crate) fn command_in(words: &[String]) -> Option<Command<'_>>
    ensures { MatchOption result (AskForNothing (map string_bytes words.now)) (λ command. Ask (map string_bytes words.now) (request_of command)) }
{
    match words {
        [name, class] => of_two(name, class),
        [name, class, calls] => of_three(name, class, calls),
        [name, class, calls, third] => of_four(name, class, calls, third),
        _ => None,
    }
}
