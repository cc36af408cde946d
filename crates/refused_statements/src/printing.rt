// The text of the line.
ghost use Rattle.std.specs.Prelude.{◌≡◌, ◌++◌, OnOk, IfOk, codes};
ghost use Rattle.std.specs.Fmt.{decimal};
ghost use Rattle.slicer_ids.specs.Escapes.{printed};
ghost use Rattle.report.specs.Texts.{line_word};
ghost use Rattle.acceptance.specs.Statements.{kind_text, statement_text, statement_refusal};

use call_graph::RefusedKind;
use refusal_lines::{push_number, push_printed};
use std::alloc::{AllocError, Global};

// A word and a number.
fn push_rule(alloc: Global, text: &mut Vec<u8>, word: &[u8], number: u8) -> Result<(), AllocError>
    ensures { OnOk result (text.new.items ≡ text.old.items ++ (word.now ++ decimal number)) }
{
    text.extend_from_slice(word)?;
    push_number(alloc, text, number as u64)
}

// Why the statement is refused.
fn push_kind(alloc: Global, text: &mut Vec<u8>, kind: RefusedKind) -> Result<(), AllocError>
    ensures { OnOk result (text.new.items ≡ text.old.items ++ kind_text kind) }
{
    match kind {
        RefusedKind::Native => text.extend_from_slice(b"native"),
        RefusedKind::Dynamic => text.extend_from_slice(b"dynamic"),
        RefusedKind::Reflection(number) => push_rule(alloc, text, b"reflection ", number),
    }
}

// The line of source, or a dash.
fn push_line(alloc: Global, text: &mut Vec<u8>, line: Option<u16>) -> Result<(), AllocError>
    ensures { OnOk result (text.new.items ≡ text.old.items ++ line_word line) }
{
    match line {
        Some(number) => push_number(alloc, text, number as u64),
        None => text.extend_from_slice(b"-"),
    }
}

// Class, name and descriptor.
fn push_names(
    text: &mut Vec<u8>,
    class: &[u8],
    name: &[u8],
    descriptor: &[u8],
) -> Result<(), AllocError>
    ensures { OnOk result (text.new.items ≡ text.old.items ++ (printed class.now ++ codes " " ++ printed name.now ++ codes " " ++ printed descriptor.now)) }
{
    push_printed(text, class)?;
    text.push(b' ')?;
    push_printed(text, name)?;
    text.push(b' ')?;
    push_printed(text, descriptor)
}

// The statement.
fn push_statement(
    alloc: Global,
    text: &mut Vec<u8>,
    class: &[u8],
    name: &[u8],
    descriptor: &[u8],
    pc: u16,
    line: Option<u16>,
) -> Result<(), AllocError>
    ensures { OnOk result (text.new.items ≡ text.old.items ++ statement_text class.now name.now descriptor.now pc line) }
{
    push_names(text, class, name, descriptor)?;
    text.push(b' ')?;
    push_number(alloc, text, pc as u64)?;
    text.push(b' ')?;
    push_line(alloc, text, line)
}

/// What is said of a statement that is refused for this reason, by its class, the name and descriptor of its method, its program
/// counter and its line.
pub fn refusal_text(
    alloc: Global,
    kind: RefusedKind,
    class: &[u8],
    name: &[u8],
    descriptor: &[u8],
    pc: u16,
    line: Option<u16>,
) -> Result<Vec<u8>, AllocError>
    ensures { IfOk result (λ v. v.items ≡ statement_refusal kind (statement_text class.now name.now descriptor.now pc line)) }
{
    let mut text = Vec::from_slice(alloc, b"refused ")?;
    push_kind(alloc, &mut text, kind)?;
    text.push(b' ')?;
    push_statement(alloc, &mut text, class, name, descriptor, pc, line)?;
    Ok(text)
}
