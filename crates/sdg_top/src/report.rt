//! The report of a run. A function that takes `out` puts its text behind what stands there; where
//! memory runs out, some of that text may stand there.

ghost use Rattle.std.specs.Prelude.{◌≡◌, ◌++◌, ◌<◌, false, map, IfOk, OnOk, codes};
ghost use Rattle.std.specs.Fmt.{digit_glyph, signed_decimal};
ghost use Rattle.std.specs.List.{flat_map, enumerate_from, join_with_byte};
ghost use Rattle.sdg_top.specs.Report as report;
ghost use Rattle.sdg_top.specs.Texts as texts;

use placement::{Header, Word};
use sdg_base::{Bytes, Exn, Name, Outcome, Step, Val};
use sqlite_items::{Items, at};
use std::alloc::{AllocError, Global};

/// The report of a run: the header, the word of each event, the nodes whose restore failed in the
/// drain, the results in the order of their commits, the history, the calls without a result, and
/// how many items are kept. Events, nodes and calls count from 1; `fields` has the name of each
/// field under its number, and a field past its end prints as no bytes.
#[tactic(auto, unfolding(crate::specs::Report::report_text))]
pub fn print_report(
    alloc: Global,
    header: Header,
    fields: &[Name],
    words: &[Word],
    drained: &[(u8, Word)],
    results: &[(u32, Outcome)],
    history: &[Step],
    unfinished: &[u32],
    kept: u64,
) -> Result<Bytes, AllocError>
    ensures { IfOk result (λ text. text ≡ report.report_text header fields.now words.now
        drained.now results.now history.now unfinished.now kept) }
{
    let mut out = Vec::new(alloc);
    print_header(&mut out, header)?;
    print_events(&mut out, words)?;
    print_drained(&mut out, drained)?;
    print_results(&mut out, results)?;
    print_history(&mut out, fields, history)?;
    print_unfinished(&mut out, unfinished)?;
    print_end(&mut out, results.len(), history.len(), kept)?;
    Ok(Items::from_vec(out))
}

#[tactic(auto, unfolding(crate::specs::Report::header_line))]
fn print_header(out: &mut Vec<u8>, header: Header) -> Result<(), AllocError>
    ensures { OnOk result (out.new.items ≡ out.old.items ++ report.header_line header) }
{
    let Header {
        nodes,
        slots,
        stores,
        width,
    } = header;
    let alloc = *out.allocator();
    let line = format!(in alloc;
        "sdg nodes {nodes} slots {slots} stores {stores} width {width}\n"
    )?;
    push(out, &line)
}

#[tactic(auto, unfolding(crate::specs::Report::end_line))]
fn print_end(out: &mut Vec<u8>, results: usize, steps: usize, kept: u64) -> Result<(), AllocError>
    ensures { OnOk result (out.new.items ≡ out.old.items ++ report.end_line results steps kept) }
{
    let alloc = *out.allocator();
    let line = format!(in alloc; "end {results} results, {steps} steps, {kept} kept\n")?;
    push(out, &line)
}

fn print_events(out: &mut Vec<u8>, words: &[Word]) -> Result<(), AllocError>
    ensures { OnOk result (out.new.items ≡
        out.old.items ++ flat_map report.event_line (enumerate_from 1 words.now)) }
{
    for (index, word) in words.iter().enumerate() {
        print_event(out, index + 1, word)?;
    }
    Ok(())
}

#[tactic(auto, unfolding(crate::specs::Report::event_line))]
fn print_event(out: &mut Vec<u8>, number: usize, word: &Word) -> Result<(), AllocError>
    ensures { OnOk result (out.new.items ≡ out.old.items ++ report.event_line (number, word.now)) }
{
    push(out, &format!(in *out.allocator(); "event {number} ")?)?;
    print_word(out, word)?;
    push(out, "\n")
}

fn print_drained(out: &mut Vec<u8>, drained: &[(u8, Word)]) -> Result<(), AllocError>
    ensures { OnOk result (out.new.items ≡
        out.old.items ++ flat_map report.drain_line drained.now) }
{
    for failure in drained {
        print_failure(out, failure)?;
    }
    Ok(())
}

#[tactic(auto, unfolding(crate::specs::Report::drain_line))]
fn print_failure(out: &mut Vec<u8>, failure: &(u8, Word)) -> Result<(), AllocError>
    ensures { OnOk result (out.new.items ≡ out.old.items ++ report.drain_line failure.now) }
{
    let (node, word) = failure;
    push(out, &format!(in *out.allocator(); "drain {node} ")?)?;
    print_word(out, word)?;
    push(out, "\n")
}

pub(crate) fn print_results(out: &mut Vec<u8>, results: &[(u32, Outcome)]) -> Result<(), AllocError>
    ensures { OnOk result (out.new.items ≡
        out.old.items ++ flat_map report.result_line results.now) }
{
    for (call, outcome) in results {
        print_result(out, *call as usize, outcome)?;
    }
    Ok(())
}

#[tactic(auto, unfolding(crate::specs::Report::result_line))]
pub(crate) fn print_result(
    out: &mut Vec<u8>,
    call: usize,
    outcome: &Outcome,
) -> Result<(), AllocError>
    ensures { OnOk result (out.new.items ≡ out.old.items ++ report.result_line (call, outcome.now)) }
{
    push(out, &format!(in *out.allocator(); "result {call} ")?)?;
    print_outcome(out, outcome)?;
    push(out, "\n")
}

fn print_history(out: &mut Vec<u8>, fields: &[Name], history: &[Step]) -> Result<(), AllocError>
    ensures { OnOk result (out.new.items ≡
        out.old.items ++ flat_map (report.step_line fields.now) history.now) }
{
    for step in history {
        print_step(out, fields, step)?;
    }
    Ok(())
}

#[tactic(auto, unfolding(crate::specs::Report::step_line))]
fn print_step(out: &mut Vec<u8>, fields: &[Name], step: &Step) -> Result<(), AllocError>
    ensures { OnOk result (out.new.items ≡ out.old.items ++ report.step_line fields.now step.now) }
{
    let alloc = *out.allocator();
    match *step {
        Step::Begin { call } => push(out, &format!(in alloc; "step begin {call}\n")?),
        Step::Block { call, instance } => match instance {
            None => push(out, &format!(in alloc; "step block {call}\n")?),
            Some(instance) => push(out, &format!(in alloc; "step block {call} {instance}\n")?),
        },
        Step::Visit { call, instance } => {
            push(out, &format!(in alloc; "step visit {call} {instance}\n")?)
        }
        Step::Join { call } => push(out, &format!(in alloc; "step join {call}\n")?),
        Step::Grow { field } => {
            push(out, "step grow ")?;
            out.extend_from_slice(field_name(fields, field))?;
            push(out, "\n")
        }
    }
}

fn field_name(fields: &[Name], field: u16) -> &[u8]
    ensures { result.now ≡ report.field_name fields.now field }
{
    match at(fields, usize::from(field)) {
        Some(name) => name.as_slice(),
        None => &[],
    }
}

fn print_unfinished(out: &mut Vec<u8>, unfinished: &[u32]) -> Result<(), AllocError>
    ensures { OnOk result (out.new.items ≡
        out.old.items ++ flat_map report.unfinished_line unfinished.now) }
{
    for call in unfinished {
        print_call(out, *call)?;
    }
    Ok(())
}

#[tactic(auto, unfolding(crate::specs::Report::unfinished_line))]
fn print_call(out: &mut Vec<u8>, call: u32) -> Result<(), AllocError>
    ensures { OnOk result (out.new.items ≡ out.old.items ++ report.unfinished_line call) }
{
    push(out, &format!(in *out.allocator(); "unfinished {call}\n")?)
}

#[tactic(auto, unfolding(crate::specs::Texts::word_text))]
fn print_word(out: &mut Vec<u8>, word: &Word) -> Result<(), AllocError>
    ensures { OnOk result (out.new.items ≡ out.old.items ++ texts.word_text word.now) }
{
    match word {
        Word::Done => push(out, "done"),
        Word::Replayed => push(out, "replayed"),
        Word::Absent => push(out, "absent"),
        Word::Down => push(out, "down"),
        Word::Held => push(out, "held"),
        Word::Empty => push(out, "empty"),
        Word::Fault => push(out, "fault"),
        Word::Repeat => push(out, "repeat"),
        Word::Open => push(out, "open"),
        Word::Full => push(out, "full"),
        Word::Closed => push(out, "closed"),
        Word::Up => push(out, "up"),
        Word::Damaged { stated, found } => print_damaged(out, stated, found),
        Word::Malformed => push(out, "malformed"),
    }
}

fn print_damaged(out: &mut Vec<u8>, stated: &[u8], found: &[u8]) -> Result<(), AllocError>
    ensures { OnOk result (out.new.items ≡ out.old.items ++ (codes "damaged "
        ++ texts.hexadecimal stated.now ++ codes " " ++ texts.hexadecimal found.now)) }
{
    push(out, "damaged ")?;
    print_hexadecimal(out, stated)?;
    push(out, " ")?;
    print_hexadecimal(out, found)
}

fn print_hexadecimal(out: &mut Vec<u8>, bytes: &[u8]) -> Result<(), AllocError>
    ensures { OnOk result (out.new.items ≡ out.old.items ++ texts.hexadecimal bytes.now) }
{
    for byte in bytes {
        out.push(digit(*byte / 16))?;
        out.push(digit(*byte % 16))?;
    }
    Ok(())
}

fn digit(value: u8) -> u8
    requires { value < 16 }
    ensures { result ≡ digit_glyph false value }
{
    if value < 10 {
        b'0' + value
    } else {
        b'a' - 10 + value
    }
}

#[tactic(auto, unfolding(crate::specs::Texts::outcome_text))]
fn print_outcome(out: &mut Vec<u8>, outcome: &Outcome) -> Result<(), AllocError>
    ensures { OnOk result (out.new.items ≡ out.old.items ++ texts.outcome_text outcome.now) }
{
    match outcome {
        Outcome::Value(value) => print_value(out, value),
        Outcome::Throws(exception) => {
            push(out, "throws ")?;
            push(out, exception_name(*exception))
        }
        Outcome::Limit => push(out, "limit"),
    }
}

fn exception_name(exception: Exn) -> &'static str
    ensures { result.now ≡ texts.exception_text exception }
{
    match exception {
        Exn::Arithmetic => "ArithmeticException",
        Exn::Index => "ArrayIndexOutOfBoundsException",
        Exn::NegativeSize => "NegativeArraySizeException",
    }
}

#[tactic(auto, unfolding(crate::specs::Texts::value_text))]
fn print_value(out: &mut Vec<u8>, value: &Val) -> Result<(), AllocError>
    ensures { OnOk result (out.new.items ≡ out.old.items ++ texts.value_text value.now) }
{
    match value {
        Val::Int(number) => push(out, &number.to_string(*out.allocator())?),
        Val::Long(number) => print_long(out, number),
        Val::Bool(true) => push(out, "true"),
        Val::Bool(false) => push(out, "false"),
        Val::Vector(elements) => {
            push(out, "[")?;
            print_elements(out, elements.as_slice())?;
            push(out, "]")
        }
        Val::Unit => push(out, "void"),
    }
}

fn print_elements(out: &mut Vec<u8>, elements: &[i64]) -> Result<(), AllocError>
    ensures { OnOk result (out.new.items ≡
        out.old.items ++ join_with_byte 44 (map signed_decimal elements.now)) }
{
    let Some((first, rest)) = elements.split_first() else {
        return Ok(());
    };
    print_long(out, first)?;
    for element in rest {
        push(out, ",")?;
        print_long(out, element)?;
    }
    Ok(())
}

fn print_long(out: &mut Vec<u8>, number: &i64) -> Result<(), AllocError>
    ensures { OnOk result (out.new.items ≡ out.old.items ++ signed_decimal number.now) }
{
    push(out, &number.to_string(*out.allocator())?)
}

pub(crate) fn push(out: &mut Vec<u8>, text: &str) -> Result<(), AllocError>
    ensures { OnOk result (out.new.items ≡ out.old.items ++ text.now) }
{
    out.extend_from_slice(text.as_bytes())
}
