// An order of constraints in which sets flow far in one round. What is found doesn't depend on it: it only spares rounds.

use dep_form::rules::{Constraint, Rule, Var};
use dep_form::system::System;
use slicer_ids::ids::NoMemory;
use std::alloc::Global;

// No constraint.
const NONE: usize = usize::MAX;

/// The constraints that read each variable, as lists by number: the first of a variable's list, and after each the next one.
#[derive(Drop)]
struct Readers {
    heads: Vec<usize>,
    next: Vec<usize>,
}

// The variable that a constraint reads.
fn source(rule: &Rule) -> Option<Var> {
    match rule {
        Rule::Copy { from, .. } => Some(*from),
        Rule::Load { base, .. } => Some(*base),
        Rule::Store { from, .. } => Some(*from),
        _ => None,
    }
}

// The variable that a constraint gives to, where it reads one.
fn target(rule: &Rule) -> Option<Var> {
    match rule {
        Rule::Copy { to, .. } => Some(*to),
        Rule::Load { to, .. } => Some(*to),
        _ => None,
    }
}

// A number that is greater than that of each variable that a constraint reads or gives to.
fn end_of(rule: &Rule) -> usize {
    let read = match source(rule) {
        Some(var) => (var.0 as usize).saturating_add(1),
        None => 0,
    };
    match target(rule) {
        Some(var) => read.max((var.0 as usize).saturating_add(1)),
        None => read,
    }
}

fn count_of(constraints: &[Constraint]) -> usize {
    let mut count = 0;
    for constraint in constraints {
        count = end_of(&constraint.rule).max(count);
    }
    count
}

fn numbers(alloc: Global, count: usize) -> Result<Vec<usize>, NoMemory> {
    match vec![in alloc; NONE; count] {
        Ok(numbers) => Ok(numbers),
        Err(_) => Err(NoMemory),
    }
}

fn push(numbers: &mut Vec<usize>, number: usize) -> Result<(), NoMemory> {
    match numbers.push(number) {
        Ok(()) => Ok(()),
        Err(_) => Err(NoMemory),
    }
}

impl Readers {
    // Puts the next constraint to the front of the list of the variable that it reads, or to the order where it reads none.
    fn add(&mut self, order: &mut Vec<usize>, number: usize, rule: &Rule) -> Result<(), NoMemory> {
        let mut next = NONE;
        match source(rule) {
            Some(var) if (var.0 as usize) < self.heads.len() => {
                next = self.heads[var.0 as usize];
                self.heads[var.0 as usize] = number;
            }
            _ => push(order, number)?,
        }
        push(&mut self.next, next)
    }
}

fn readers_of(
    alloc: Global,
    constraints: &[Constraint],
    order: &mut Vec<usize>,
) -> Result<Readers, NoMemory> {
    let mut readers = Readers {
        heads: numbers(alloc, count_of(constraints))?,
        next: Vec::new(alloc),
    };
    for number in 0..constraints.len() {
        readers.add(order, number, &constraints[number].rule)?;
    }
    Ok(readers)
}

/// A search in depth along the constraints.
#[derive(Drop)]
struct Search {
    // the first constraint of each variable that wasn't followed yet
    left: Vec<usize>,
    met: Vec<bool>,
    // a path of variables that aren't done
    stack: Vec<usize>,
    // variables, each after those that are met first from it
    done: Vec<usize>,
}

impl Search {
    fn new(alloc: Global, readers: &Readers) -> Result<Search, NoMemory> {
        let mut left = Vec::new(alloc);
        left.extend_from_slice(readers.heads.as_slice())?;
        let Ok(met) = vec![in alloc; false; readers.heads.len()] else {
            return Err(NoMemory);
        };
        Ok(Search {
            left,
            met,
            stack: Vec::new(alloc),
            done: Vec::new(alloc),
        })
    }

    // Goes to a variable, unless it was met.
    fn meet(&mut self, var: usize) -> Result<(), NoMemory> {
        if var < self.met.len() && !self.met[var] {
            self.met[var] = true;
            push(&mut self.stack, var)?;
        }
        Ok(())
    }

    // Follows a constraint of the variable on top of the stack.
    fn follow(&mut self, constraints: &[Constraint], number: usize) -> Result<(), NoMemory> {
        match constraints.get(number) {
            Some(constraint) => match target(&constraint.rule) {
                Some(to) => self.meet(to.0 as usize),
                None => Ok(()),
            },
            None => Ok(()),
        }
    }

    // Follows the next constraint of the variable on top of the stack, or is done with it. False where the stack is empty.
    fn advance(&mut self, constraints: &[Constraint], readers: &Readers) -> Result<bool, NoMemory> {
        let Some(var) = self.stack.last().copied() else {
            return Ok(false);
        };
        match self.left.get(var).copied() {
            Some(number) if number < readers.next.len() => {
                self.left[var] = readers.next[number];
                self.follow(constraints, number)?;
            }
            _ => {
                self.stack.pop();
                push(&mut self.done, var)?;
            }
        }
        Ok(true)
    }

    // Meets all that is met from a variable.
    fn search(
        &mut self,
        constraints: &[Constraint],
        readers: &Readers,
        var: usize,
    ) -> Result<(), NoMemory> {
        self.meet(var)?;
        for _ in 0..u64::MAX {
            if !self.advance(constraints, readers)? {
                break;
            }
        }
        Ok(())
    }
}

fn search_all(
    alloc: Global,
    constraints: &[Constraint],
    readers: &Readers,
) -> Result<Vec<usize>, NoMemory> {
    let mut search = Search::new(alloc, readers)?;
    for var in 0..readers.heads.len() {
        search.search(constraints, readers, var)?;
    }
    Ok(search.done)
}

// Adds the constraints of a variable's list.
fn add_list(order: &mut Vec<usize>, readers: &Readers, head: usize) -> Result<(), NoMemory> {
    let mut number = head;
    for _ in 0..readers.next.len() {
        if number >= readers.next.len() {
            break;
        }
        push(order, number)?;
        number = readers.next[number];
    }
    Ok(())
}

/// The numbers of the constraints: first those that read no variable; then the others, those that read a variable after those that
/// give to it, but where both lie on a cycle. Each constraint and each variable is looked at a few times.
pub fn order(alloc: Global, system: &System) -> Result<Vec<usize>, NoMemory> {
    let constraints = system.constraints.items();
    let mut order = Vec::new(alloc);
    let readers = readers_of(alloc, constraints, &mut order)?;
    let mut done = search_all(alloc, constraints, &readers)?;
    done.reverse();
    for var in done.as_slice() {
        if let Some(head) = readers.heads.get(*var).copied() {
            add_list(&mut order, &readers, head)?;
        }
    }
    Ok(order)
}
