// What a session has been told.
ghost use Rattle.std.specs.Prelude.{◌≡◌, ◌≢◌, ℕ, List, [], Ok, OnOk, OnErr, IfOk, true, false, if◌then◌else◌};
ghost use Rattle.slicer_ids.specs.declared.ids.ClassId.{ClassId};
ghost use Rattle.slicer_ids.specs.declared.ids.Statement.{Statement};
ghost use Rattle.slicer_ids.specs.Sets.{IsOrderedListOf};
ghost use Rattle.slicer_ids.specs.Order.{StatementBefore};
ghost use Rattle.dep_form.specs.declared.access.Access.{Access};
ghost use Rattle.dep_form.specs.declared.facts.Facts.{Facts};
ghost use Rattle.dep_form.specs.LookUps.{IsClassNamed, AreAtLine};
ghost use Rattle.dep_form.specs.Orders.{RiseBy, statement_cmp};
ghost use Rattle.script.specs.declared.command.Place.{Place};
ghost use Rattle.script.specs.declared.command.Command.TheVariants as command;
ghost use Rattle.report.specs.Replies.{Done};
ghost use Rattle.session_form.specs.Places.{IsAccess, NamesStatement, NamesAccess};
ghost use Rattle.session_form.specs.States.{Gains, at_first};
ghost use Rattle.session_form.specs.Answers.{Answers};
ghost use Rattle.session_state.specs.declared.told.Told.TheVariants.{Same, Other};
ghost use Rattle.session_state.specs.Telling.{answer_of, TellsSeeds};

use crate::ordered::{add, add_all};
use crate::told::Told;
use dep_form::facts::Facts;
use script::command::Place;
use session_places::naming::{access_at, statement_at, statements_at};
use slicer_ids::ids::{NoMemory, Statement};
use slicer_ids::name::Name;
use std::alloc::Global;
use std::marker::Model;

/// What a session has been told: its seeds, and the accesses that it expanded. Contracts see both as lists in order.
#[derive(Drop)]
pub struct SessionState {
    seeds: Vec<Statement>,
    expanded: Vec<Statement>,
    pub ghost seeds_rise: { RiseBy statement_cmp (λ s. s) seeds.items },
    pub ghost expanded_rise: { RiseBy statement_cmp (λ s. s) expanded.items },
}

impl Model for SessionState {
    ghost use Rattle.session_form.specs.States.{State};

    ghost Value = { State };

    ghost view = { λ s. record { seeds = s.seeds.items; expanded = s.expanded.items } };
}

// What adding seeds comes to.
fn told(is_new: bool) -> Told
    ensures { result ≡ (if is_new then Other else Same) }
{
    if is_new { Told::Other } else { Told::Same }
}

// The accesses of the facts, in order.
fn all_accesses(alloc: Global, f: &Facts) -> Result<Vec<Statement>, NoMemory>
    ensures { IfOk result (λ v. IsOrderedListOf StatementBefore v.items (IsAccess f.now)) }
{
    let accesses = f.accesses.items();
    let mut all = Vec::with_capacity(alloc, accesses.len())?;
    for access in accesses {
        all.push(access.0)?;
    }
    Ok(all)
}

impl SessionState {
    /// No seeds and no expansions.
    pub fn new(alloc: Global) -> SessionState
        ensures { result ≡ at_first }
    {
        SessionState {
            seeds: Vec::new(alloc),
            expanded: Vec::new(alloc),
        }
    }

    /// The seeds, in order.
    pub fn seeds(&self) -> &[Statement]
        ensures { result.now ≡ self.now.seeds }
    {
        self.seeds.as_slice()
    }

    /// The accesses that are expanded, in order.
    pub fn expanded(&self) -> &[Statement]
        ensures { result.now ≡ self.now.expanded }
    {
        self.expanded.as_slice()
    }

    // Adds a seed.
    fn add_seed(&mut self, s: Statement) -> Result<Told, NoMemory>
        ensures answer { (f : Facts) (p : Place) → NamesStatement f p s → IfOk result (λ t. Answers f self.old (command.Seed p) (answer_of t) self.new) }
        ensures seeds { IfOk result (λ t. TellsSeeds t self.old self.new) }
        ensures kept { OnErr result (self.new ≡ self.old) }
    {
        let is_new = add(&mut self.seeds, s)?;
        Ok(told(is_new))
    }

    /// The command that adds a statement to the seeds.
    pub fn seed(&mut self, f: &Facts, place: &Place) -> Result<Told, NoMemory>
        ensures answer { IfOk result (λ t. Answers f.now self.old (command.Seed place.now) (answer_of t) self.new) }
        ensures seeds { IfOk result (λ t. TellsSeeds t self.old self.new) }
        ensures kept { OnErr result (self.new ≡ self.old) }
    {
        match statement_at(f, place) {
            Ok(s) => self.add_seed(s),
            Err(error) => Ok(Told::Refused(error)),
        }
    }

    // Adds seeds.
    fn add_seeds(&mut self, statements: &[Statement]) -> Result<Told, NoMemory>
        ensures answer { (f : Facts) (name : List ℕ) (line : ℕ) (c : ClassId) → IsClassNamed f name c → AreAtLine f c line statements.now → statements.now ≢ [] → IfOk result (λ t. Answers f self.old (command.SeedLine name line) (answer_of t) self.new) }
        ensures seeds { IfOk result (λ t. TellsSeeds t self.old self.new) }
        ensures kept { OnErr result (self.new ≡ self.old) }
    {
        let is_new = add_all(&mut self.seeds, statements)?;
        Ok(told(is_new))
    }

    /// The command that adds the statements of a class at a line to the seeds.
    pub fn seed_line(&mut self, f: &Facts, name: &Name, line: u16) -> Result<Told, NoMemory>
        ensures answer { IfOk result (λ t. Answers f.now self.old (command.SeedLine name.now line) (answer_of t) self.new) }
        ensures seeds { IfOk result (λ t. TellsSeeds t self.old self.new) }
        ensures kept { OnErr result (self.new ≡ self.old) }
    {
        match statements_at(f, name.bytes(), line) {
            Ok(statements) => self.add_seeds(statements),
            Err(error) => Ok(Told::Refused(error)),
        }
    }

    /// The command that drops all seeds and expansions.
    pub fn reset(&mut self)
        ensures { (f : Facts) → Answers f self.old command.Reset Done self.new }
    {
        self.seeds.clear();
        self.expanded.clear();
    }

    // Adds an expansion.
    fn add_expansion(&mut self, s: Statement) -> Result<Told, NoMemory>
        ensures answer { (f : Facts) (p : Place) (a : Access) → NamesAccess f p s a → IfOk result (λ t. Answers f self.old (command.Expand p) (answer_of t) self.new) }
        ensures seeds { IfOk result (λ t. TellsSeeds t self.old self.new) }
        ensures kept { OnErr result (self.new ≡ self.old) }
    {
        add(&mut self.expanded, s)?;
        Ok(Told::Same)
    }

    /// The command that expands a heap access.
    pub fn expand(&mut self, f: &Facts, place: &Place) -> Result<Told, NoMemory>
        ensures answer { IfOk result (λ t. Answers f.now self.old (command.Expand place.now) (answer_of t) self.new) }
        ensures seeds { IfOk result (λ t. TellsSeeds t self.old self.new) }
        ensures kept { OnErr result (self.new ≡ self.old) }
    {
        match access_at(f, place) {
            Ok(named) => self.add_expansion(named.statement),
            Err(error) => Ok(Told::Refused(error)),
        }
    }

    /// The command that expands all heap accesses.
    pub fn expand_all(&mut self, alloc: Global, f: &Facts) -> Result<(), NoMemory>
        ensures answer { OnOk result (Answers f.now self.old command.ExpandAll Done self.new) }
        ensures kept { OnErr result (self.new ≡ self.old) }
    {
        self.expanded = all_accesses(alloc, f)?;
        Ok(())
    }
}
