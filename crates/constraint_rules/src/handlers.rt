// Constraints of what is thrown.
ghost use Rattle.std.specs.Prelude.{◌≡◌, ◌⊎◌, ◌↔◌, ◌<◌, ◌≤◌, List, IsTrue, Contains, OnOk};
ghost use Rattle.worklists.specs.Growth.{Grows, FromOne};
ghost use Rattle.class_form.specs.Opcodes.{IsCall, IsThrow};
ghost use Rattle.class_form.specs.declared.class_file.Attribute.{Attribute};
ghost use Rattle.class_form.specs.declared.class_file.Handler.{Handler};
ghost use Rattle.dep_form.specs.declared.system.System.{System};
ghost use Rattle.program_form.specs.Programs.{Program};
ghost use Rattle.program_form.specs.Statements.{MayLeave};
ghost use Rattle.constraint_form.specs.Variables.{Meaning};
ghost use Rattle.constraint_form.specs.Rules.{IsRaisedAs, IsHandlerFilter};
ghost use Rattle.constraint_rules.specs.One.{IsOne};
ghost use Rattle.constraint_rules.specs.Settings.{IsSetting, IsPlaced, IsReady, place_of};
ghost use Rattle.constraint_rules.specs.Statements.{Catching, Leaving};
ghost use Rattle.constraint_rules.specs.Handlers.{Covers, IsCatchAll, IsCaughtBy, IsCaughtIn, IsAllCaughtIn};

use crate::forms::{copy_of, push_found};
use crate::numbers::{object, statement_of};
use crate::tables::{Reachable, Tables};
use class_form::class_file::{Content, Handler};
use dep_form::rules::{Rule, Var};
use slicer_ids::ids::{ClassId, NoMemory};

fn is_throw(op: u8) -> bool
    ensures { IsTrue result ↔ IsThrow op }
{
    op == 191
}

fn is_call(op: u8) -> bool
    ensures { IsTrue result ↔ IsCall op }
{
    matches!(op, 182..=186)
}

/// The variable of what the statement throws, or of what its call throws.
pub(crate) fn raised(t: &Tables<'_>, x: &Reachable<'_>) -> Option<Var>
    requires { IsReady t.now x.now }
    ensures { (p : Program) (s : System) (names : List Meaning) → IsSetting t.now p s names → IsPlaced p x.now → IsOne (IsRaisedAs p s names (place_of x.now)) result }
{
    if is_throw(x.instr.op) {
        return object(t, x, 0);
    }
    if is_call(x.instr.op) {
        return t.variables.exception_of(statement_of(x));
    }
    None
}

// Whether a handler covers the instruction at a program counter.
fn covers(handler: &Handler, pc: u16) -> bool
    ensures { IsTrue result ↔ Covers pc handler.now }
{
    handler.start <= pc && pc < handler.end
}

// The class that a handler keeps: the one that it names, where that is of the folder, or all; none where it names no class.
fn kept_by(t: &Tables<'_>, x: &Reachable<'_>, handler: &Handler) -> Option<Option<ClassId>>
    ensures { (p : Program) (s : System) (names : List Meaning) → IsSetting t.now p s names → IsPlaced p x.now → IsOne (IsHandlerFilter p (place_of x.now) handler.now) result }
{
    if handler.catch_type == 0 {
        return Some(None);
    }
    match x.file.pool.class(handler.catch_type) {
        Some(text) => Some(t.h.find_class(text)),
        None => None,
    }
}

// Adds that a handler that covers the statement catches what is raised.
fn push_caught(
    t: &Tables<'_>,
    x: &Reachable<'_>,
    handler: &Handler,
    rules: &mut Vec<Rule>,
) -> Result<(), NoMemory>
    requires { IsReady t.now x.now }
    ensures { (p : Program) (s : System) (names : List Meaning) → IsSetting t.now p s names → IsPlaced p x.now → OnOk result (Grows rules.old.items rules.new.items (IsCaughtBy p s names (place_of x.now) handler.now)) }
{
    match kept_by(t, x, handler) {
        Some(keep) => {
            let to = t.variables.caught_at(x.body.method, handler.handler);
            push_found(rules, copy_of(raised(t, x), to, keep))
        }
        None => Ok(()),
    }
}

// .. where it covers the statement.
fn push_handler(
    t: &Tables<'_>,
    x: &Reachable<'_>,
    handler: &Handler,
    rules: &mut Vec<Rule>,
) -> Result<(), NoMemory>
    requires { IsReady t.now x.now }
    ensures { (p : Program) (s : System) (names : List Meaning) → IsSetting t.now p s names → IsPlaced p x.now → OnOk result (Grows rules.old.items rules.new.items (λ r. Covers x.now.point.now.pc handler.now × IsCaughtBy p s names (place_of x.now) handler.now r)) }
{
    if covers(handler, x.point.pc) {
        push_caught(t, x, handler, rules)
    } else {
        Ok(())
    }
}

// .. of those of a table.
fn push_handlers(
    t: &Tables<'_>,
    x: &Reachable<'_>,
    handlers: &[Handler],
    rules: &mut Vec<Rule>,
) -> Result<(), NoMemory>
    requires { IsReady t.now x.now }
    ensures { (p : Program) (s : System) (names : List Meaning) → IsSetting t.now p s names → IsPlaced p x.now → OnOk result (Grows rules.old.items rules.new.items (FromOne (λ h r. Covers x.now.point.now.pc h × IsCaughtBy p s names (place_of x.now) h r) handlers.now)) }
{
    for handler in handlers {
        push_handler(t, x, handler, rules)?;
    }
    Ok(())
}

// .. of the content of an attribute, where that is code.
fn push_content(
    t: &Tables<'_>,
    x: &Reachable<'_>,
    content: &Content,
    rules: &mut Vec<Rule>,
) -> Result<(), NoMemory>
    requires { IsReady t.now x.now }
    ensures { (p : Program) (s : System) (names : List Meaning) (a : Attribute) → IsSetting t.now p s names → IsPlaced p x.now → a.content ≡ content.now → OnOk result (Grows rules.old.items rules.new.items (IsCaughtIn p s names (place_of x.now) a)) }
{
    match content {
        Content::Code(code) => push_handlers(t, x, code.handlers.items(), rules),
        Content::Other(_) => Ok(()),
    }
}

/// Adds that handlers catch what the statement throws, or what its call throws.
pub(crate) fn push_catching(
    t: &Tables<'_>,
    x: &Reachable<'_>,
    rules: &mut Vec<Rule>,
) -> Result<(), NoMemory>
    requires { IsReady t.now x.now }
    ensures { (p : Program) (s : System) (names : List Meaning) → IsSetting t.now p s names → IsPlaced p x.now → OnOk result (Grows rules.old.items rules.new.items (Catching p s names (place_of x.now))) }
{
    for attribute in x.member.attributes.items() {
        push_content(t, x, &attribute.content, rules)?;
    }
    Ok(())
}

// Whether a handler covers the program counter and catches all.
fn is_catch_all(handler: &Handler, pc: u16) -> bool
    ensures { IsTrue result ↔ IsCatchAll pc handler.now }
{
    handler.catch_type == 0 && covers(handler, pc)
}

// Whether one of the handlers does.
fn catch_all(handlers: &[Handler], pc: u16) -> bool
    ensures { IsTrue result ↔ ((h : Handler) × Contains handlers.now h × IsCatchAll pc h) }
{
    for handler in handlers {
        if is_catch_all(handler, pc) {
            return true;
        }
    }
    false
}

// .. of those of the content of an attribute, where that is code.
fn catches_all(content: &Content, pc: u16) -> bool
    ensures { (a : Attribute) → a.content ≡ content.now → IsTrue result ↔ IsAllCaughtIn pc a }
{
    match content {
        Content::Code(code) => catch_all(code.handlers.items(), pc),
        Content::Other(_) => false,
    }
}

// Whether what is thrown at the statement may leave the method.
fn may_leave(x: &Reachable<'_>) -> bool
    ensures { (p : Program) → IsPlaced p x.now → IsTrue result ↔ MayLeave p (place_of x.now) }
{
    for attribute in x.member.attributes.items() {
        if catches_all(&attribute.content, x.point.pc) {
            return false;
        }
    }
    true
}

/// That what the statement throws, or what its call throws, leaves the method.
pub(crate) fn leaving(t: &Tables<'_>, x: &Reachable<'_>) -> Option<Rule>
    requires { IsReady t.now x.now }
    ensures { (p : Program) (s : System) (names : List Meaning) → IsSetting t.now p s names → IsPlaced p x.now → IsOne (Leaving p s names (place_of x.now)) result }
{
    if !may_leave(x) {
        return None;
    }
    let to = t.variables.thrown_by(x.body.method);
    copy_of(raised(t, x), to, None)
}
