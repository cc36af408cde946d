// How many nodes there are, counted statement by statement, so that no more than the nodes of one statement are kept at a time.
ghost use Rattle.std.specs.Prelude.{◌≡◌, ◌<◌, ◌+◌, ◌*◌, ◌/◌, suc, IfOk, length};
ghost use Rattle.class_form.specs.declared.body.Body.{Body};
ghost use Rattle.worklists.specs.Growth.{FromOne};
ghost use Rattle.node_tables.specs.Rows.{AreAllTotals, AreTotals, AtBody, AtEntryNumber, AtMethod, AtReached, AtRoot, HasNodes, IsBodyAt, IsCounted};
ghost use Rattle.node_tables.specs.Scenes.{IsInOrder, IsScene};
ghost use Rattle.node_tables.specs.Statements.{AtEntry, AtExit, AtInstr};

use crate::rows::{add_entry, add_exit, body_at, find_body};
use crate::scene::Scene;
use crate::statements::add_instr;
use crate::tables::{add_entry_number, answers};
use class_form::body::{Body, Instr};
use method_facts::solved::is_reached;
use slicer_ids::ids::{MethodId, NoMemory};
use std::alloc::Global;

// How many nodes a method has, and how many of these are formals and exits.
#[derive(Clone, Copy)]
pub struct Count {
    pub nodes: u64,
    pub formals: u64,
    pub exits: u64,
}

/// How many nodes, and how many words of summaries, some methods have together.
#[derive(Clone, Copy)]
pub struct Totals {
    pub nodes: u64,
    pub words: u64,
}

fn plus(a: u64, b: u64) -> Result<u64, NoMemory>
    ensures { IfOk result (λ c. c ≡ a + b) }
{
    match a.checked_add(b) {
        Some(c) => Ok(c),
        None => Err(NoMemory),
    }
}

fn times(a: u64, b: u64) -> Result<u64, NoMemory>
    ensures { IfOk result (λ c. c ≡ a * b) }
{
    match a.checked_mul(b) {
        Some(c) => Ok(c),
        None => Err(NoMemory),
    }
}

fn count_instr(
    alloc: Global,
    scene: &Scene<'_>,
    body: &Body,
    instr: &Instr,
) -> Result<u64, NoMemory>
    requires scene { IsScene scene.now }
    requires order { IsInOrder body.now }
    ensures { IfOk result (HasNodes (AtInstr scene.now.system.now scene.now.effects.now body.now instr.now)) }
{
    let mut nodes = Vec::new(alloc);
    add_instr(alloc, scene, &mut nodes, body, instr)?;
    Ok(nodes.len() as u64)
}

fn count_instrs(
    alloc: Global,
    scene: &Scene<'_>,
    body: &Body,
    instrs: &[Instr],
) -> Result<u64, NoMemory>
    requires scene { IsScene scene.now }
    requires order { IsInOrder body.now }
    requires instrs { instrs.now ≡ body.now.instrs }
    ensures { IfOk result (HasNodes (FromOne (AtInstr scene.now.system.now scene.now.effects.now body.now) instrs.now)) }
{
    let mut sum = 0;
    for instr in instrs {
        let count = count_instr(alloc, scene, body, instr)?;
        sum = plus(sum, count)?;
    }
    Ok(sum)
}

fn count_body(alloc: Global, scene: &Scene<'_>, m: MethodId, number: usize) -> Result<u64, NoMemory>
    requires scene { IsScene scene.now }
    requires number { (b : Body) × IsBodyAt scene.now.bodies.now m number b }
    ensures { IfOk result (HasNodes (AtBody scene.now m)) }
{
    let body = body_at(scene.bodies, number);
    count_instrs(alloc, scene, body, body.instrs.items())
}

fn count_statements(alloc: Global, scene: &Scene<'_>, m: MethodId) -> Result<u64, NoMemory>
    requires scene { IsScene scene.now }
    ensures { IfOk result (HasNodes (AtBody scene.now m)) }
{
    match find_body(scene.bodies, m) {
        None => Ok(0),
        Some(number) => count_body(alloc, scene, m, number),
    }
}

fn count_entry(alloc: Global, scene: &Scene<'_>, m: MethodId) -> Result<u64, NoMemory>
    requires scene { IsScene scene.now }
    requires m { m.0 < length scene.now.system.now.methods }
    ensures { IfOk result (HasNodes (AtEntry scene.now.system.now scene.now.effects.now m)) }
{
    let mut nodes = Vec::new(alloc);
    add_entry(scene, &mut nodes, m)?;
    Ok(nodes.len() as u64)
}

fn count_exit(alloc: Global, scene: &Scene<'_>, m: MethodId, answers: bool) -> Result<u64, NoMemory>
    requires scene { IsScene scene.now }
    requires m { m.0 < length scene.now.system.now.methods }
    ensures { IfOk result (HasNodes (AtExit scene.now.system.now scene.now.effects.now m answers)) }
{
    let mut nodes = Vec::new(alloc);
    add_exit(scene, &mut nodes, m, answers)?;
    Ok(nodes.len() as u64)
}

fn count_method(
    alloc: Global,
    scene: &Scene<'_>,
    m: MethodId,
    answers: bool,
) -> Result<Count, NoMemory>
    requires scene { IsScene scene.now }
    requires m { m.0 < length scene.now.system.now.methods }
    ensures { IfOk result (λ c. IsCounted (AtMethod scene.now m answers) c.nodes c.formals c.exits) }
{
    let formals = count_entry(alloc, scene, m)?;
    let inner = count_statements(alloc, scene, m)?;
    let exits = count_exit(alloc, scene, m, answers)?;
    let before = plus(formals, inner)?;
    let nodes = plus(before, exits)?;
    Ok(Count {
        nodes,
        formals,
        exits,
    })
}

fn count_reached(alloc: Global, scene: &Scene<'_>, m: MethodId) -> Result<Count, NoMemory>
    requires scene { IsScene scene.now }
    requires m { m.0 < length scene.now.system.now.methods }
    ensures { IfOk result (λ c. IsCounted (AtReached scene.now m) c.nodes c.formals c.exits) }
{
    if is_reached(scene.solution, m) {
        count_method(alloc, scene, m, answers(scene, m))
    } else {
        Ok(Count {
            nodes: 0,
            formals: 0,
            exits: 0,
        })
    }
}

/// How many words the rows of summaries of a method take.
pub fn words_of(formals: u64, exits: u64) -> Result<u64, NoMemory>
    ensures { IfOk result (λ w. w ≡ exits * (2 * suc ((formals + 63) / 64))) }
{
    let more = plus(formals, 63)?;
    let both = 2 * (more / 64 + 1);
    times(exits, both)
}

fn add_method(
    alloc: Global,
    scene: &Scene<'_>,
    m: MethodId,
    totals: Totals,
) -> Result<Totals, NoMemory>
    requires scene { IsScene scene.now }
    requires m { m.0 < length scene.now.system.now.methods }
    requires totals { AreTotals scene.now m.0 totals.nodes totals.words }
    ensures { IfOk result (λ t. AreTotals scene.now (m.0 + 1) t.nodes t.words) }
{
    let count = count_reached(alloc, scene, m)?;
    let nodes = plus(totals.nodes, count.nodes)?;
    let more = words_of(count.formals, count.exits)?;
    let words = plus(totals.words, more)?;
    Ok(Totals { nodes, words })
}

fn count_methods(alloc: Global, scene: &Scene<'_>) -> Result<Totals, NoMemory>
    requires { IsScene scene.now }
    ensures { IfOk result (λ t. AreTotals scene.now (length scene.now.system.now.methods) t.nodes t.words) }
{
    let mut totals = Totals { nodes: 0, words: 0 };
    for m in 0..scene.system.methods.items().len() {
        totals = add_method(alloc, scene, MethodId(m as u32), totals)?;
    }
    Ok(totals)
}

fn count_entry_number(alloc: Global, scene: &Scene<'_>, k: usize) -> Result<u64, NoMemory>
    requires scene { IsScene scene.now }
    requires k { k < length scene.now.entries.now }
    ensures { IfOk result (HasNodes (AtEntryNumber scene.now k)) }
{
    let mut nodes = Vec::new(alloc);
    add_entry_number(scene, &mut nodes, k)?;
    Ok(nodes.len() as u64)
}

fn count_root(alloc: Global, scene: &Scene<'_>) -> Result<u64, NoMemory>
    requires { IsScene scene.now }
    ensures { IfOk result (HasNodes (AtRoot scene.now)) }
{
    let mut sum = 0;
    for k in 0..scene.entries.len() {
        let count = count_entry_number(alloc, scene, k)?;
        sum = plus(sum, count)?;
    }
    Ok(sum)
}

/// How many nodes a program has, and how many words the rows of its summaries take. No more than the nodes of one statement, and
/// those before or after the statements of one method, are kept at a time.
pub fn count_all(alloc: Global, scene: &Scene<'_>) -> Result<Totals, NoMemory>
    requires { IsScene scene.now }
    ensures { IfOk result (λ t. AreAllTotals scene.now t.nodes t.words) }
{
    let methods = count_methods(alloc, scene)?;
    let root = count_root(alloc, scene)?;
    let nodes = plus(methods.nodes, root)?;
    Ok(Totals {
        nodes,
        words: methods.words,
    })
}
