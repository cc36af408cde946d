// Generated systems of constraints.

use crate::parts::{CLASSES, SITES, call_of, method_of, outside_rule, site_of, variable};
use bench_tools::numbers::Numbers;
use dep_form::call_site::CallSite;
use dep_form::rules::{Constraint, MethodVars, OutsideRule, Rule, SiteInfo, Var};
use dep_form::system::System;
use points_to::checked::{Parts, is_whole, system};
use slicer_ids::ids::{CallId, ClassId, FieldId, MethodId, NoMemory, SiteId};
use slicer_ids::list::List;
use std::alloc::Global;

/// What joins the variables of different methods.
#[derive(Clone, Copy, PartialEq, Eq, Debug, Drop)]
pub enum Shape {
    /// Calls of each other, and fields.
    Calls,
    /// The states of what outside calls are given.
    States,
    /// One cycle of copies, in no order.
    Ring,
}

/// Fields but for the elements, the length and the state.
const FIELDS: u32 = 20;

/// The number of the first variable of a method that is neither a formal nor what it answers or throws.
const LOCAL: u32 = 5;

const LOCALS: u32 = 90;

/// How many of these are on a cycle of copies.
const CYCLE: u32 = 45;

/// The variable of a method that what its calls throw flows to.
const CAUGHT: u32 = 99;

// Parts that are being added.
#[derive(Drop)]
struct Builder {
    alloc: Global,
    numbers: Numbers,
    constraints: Vec<Constraint>,
    calls: Vec<CallSite>,
    rules: Vec<OutsideRule>,
    methods: Vec<MethodVars>,
    sites: Vec<SiteInfo>,
    selects: Vec<(u32, ClassId, Option<MethodId>)>,
}

impl Builder {
    fn new(alloc: Global) -> Builder {
        Builder {
            alloc,
            numbers: Numbers::new(1),
            constraints: Vec::new(alloc),
            calls: Vec::new(alloc),
            rules: Vec::new(alloc),
            methods: Vec::new(alloc),
            sites: Vec::new(alloc),
            selects: Vec::new(alloc),
        }
    }

    // A constraint that is in force where the method is reached.
    fn say(&mut self, method: u32, rule: Rule) -> Result<(), NoMemory> {
        let method = MethodId(method);
        self.constraints.push(Constraint { method, rule })?;
        Ok(())
    }

    // Some variable of the method.
    fn local(&mut self, method: u32) -> Var {
        variable(method, LOCAL.saturating_add(self.numbers.below(LOCALS)))
    }

    fn field(&mut self) -> FieldId {
        FieldId(self.numbers.below(FIELDS))
    }

    // A method of a group, the first of which is given.
    fn other(&mut self, first: u32, count: u32) -> u32 {
        first.saturating_add(self.numbers.below(count.max(1)))
    }

    fn copy(&mut self, method: u32, from: Var, to: Var) -> Result<(), NoMemory> {
        let keep = None;
        self.say(method, Rule::Copy { from, to, keep })
    }

    // A call whose arguments are some variables of the method.
    fn call(&mut self, method: u32, fresh: Option<SiteId>) -> Result<CallId, NoMemory> {
        let call = CallId(number(self.calls.len()));
        let arguments = (self.local(method), self.local(method), self.local(method));
        let result = self.local(method);
        let caught = variable(method, CAUGHT);
        let site = call_of(self.alloc, arguments, result, caught, fresh)?;
        self.calls.push(site)?;
        self.rules.push(outside_rule(self.alloc)?)?;
        Ok(call)
    }

    // New objects, each in some variable.
    fn add_sites(&mut self, method: u32) -> Result<(), NoMemory> {
        for _ in 0..SITES {
            let site = number(self.sites.len());
            self.sites.push(site_of(site))?;
            let to = self.local(method);
            let site = SiteId(site);
            self.say(method, Rule::Alloc { to, site })?;
        }
        Ok(())
    }

    // Copies of the method's variables: formals, a cycle through half of the others, and some more.
    fn add_copies(&mut self, method: u32) -> Result<(), NoMemory> {
        for formal in 0..3u32 {
            let to = self.local(method);
            self.copy(method, variable(method, formal), to)?;
        }
        for k in 0..CYCLE {
            let from = variable(method, LOCAL + k);
            let to = variable(method, LOCAL + (k + 1) % CYCLE);
            self.copy(method, from, to)?;
        }
        for _ in 0..LOCALS {
            let from = self.local(method);
            let to = self.local(method);
            self.copy(method, from, to)?;
        }
        let answer = self.local(method);
        self.copy(method, answer, variable(method, 3))?;
        let thrown = self.local(method);
        self.copy(method, thrown, variable(method, 4))
    }

    // Loads and stores.
    fn add_fields(&mut self, method: u32) -> Result<(), NoMemory> {
        for _ in 0..5u32 {
            let (base, field, to) = (self.local(method), self.field(), self.local(method));
            self.say(method, Rule::Load { base, field, to })?;
            let (base, field, from) = (self.local(method), self.field(), self.local(method));
            self.say(method, Rule::Store { base, field, from })?;
        }
        Ok(())
    }

    // Calls of the next method of the group, of another, and of what classes select.
    fn add_calls(&mut self, method: u32, first: u32, count: u32) -> Result<(), NoMemory> {
        let next = if method.saturating_add(1) < first.saturating_add(count) {
            method.saturating_add(1)
        } else {
            first
        };
        let targets = [next, self.other(first, count)];
        for target in targets {
            let call = self.call(method, None)?;
            let target = MethodId(target);
            self.say(method, Rule::Direct { call, target })?;
        }
        let call = self.call(method, None)?;
        let signature = first;
        self.say(method, Rule::Virtual { call, signature })
    }

    // Calls that go outside, whose receiver is a variable of some method of the group.
    fn add_outside(&mut self, method: u32, first: u32, count: u32) -> Result<(), NoMemory> {
        for _ in 0..3u32 {
            let from = self.other(first, count);
            let from = self.local(from);
            let to = self.local(method);
            let call = self.call(method, Some(SiteId(method.saturating_mul(SITES))))?;
            self.say(method, Rule::OutsideDirect { call })?;
            self.copy(method, from, to)?;
        }
        Ok(())
    }

    // What the classes select for the signature of a group.
    fn add_selects(&mut self, first: u32, count: u32) -> Result<(), NoMemory> {
        for class in 0..CLASSES {
            let target = MethodId(self.other(first, count));
            self.selects.push((first, ClassId(class), Some(target)))?;
        }
        Ok(())
    }

    fn add_method(
        &mut self,
        shape: Shape,
        method: u32,
        first: u32,
        count: u32,
    ) -> Result<(), NoMemory> {
        self.methods.push(method_of(self.alloc, method)?)?;
        self.add_sites(method)?;
        match shape {
            Shape::Calls => {
                self.add_copies(method)?;
                self.add_fields(method)?;
                self.add_calls(method, first, count)
            }
            Shape::States => {
                self.add_copies(method)?;
                self.add_outside(method, first, count)
            }
            Shape::Ring => Ok(()),
        }
    }

    // The methods in groups of so many. The root enters the first of each group.
    fn add_methods(&mut self, shape: Shape, methods: u32, group: u32) -> Result<(), NoMemory> {
        let mut first: u32 = 0;
        for method in 0..methods {
            if method >= first.saturating_add(group) {
                first = method;
            }
            let count = group.min(methods.saturating_sub(first));
            if method == first {
                self.add_selects(first, count)?;
            }
            self.add_method(shape, method, first, count)?;
            let target = MethodId(method);
            self.say(methods, Rule::Enter { target })?;
        }
        Ok(())
    }

    // Each variable is copied into the next one, and the last one into the first. The constraints stand in no order.
    fn add_ring(&mut self, methods: u32, variables: u32) -> Result<(), NoMemory> {
        let mut order = Vec::new(self.alloc);
        for v in 0..variables {
            order.push(v)?;
        }
        shuffle(&mut order, &mut self.numbers);
        for v in order.as_slice() {
            let next = if *v < variables.saturating_sub(1) {
                *v + 1
            } else {
                0
            };
            self.copy(methods, Var(u64::from(*v)), Var(u64::from(next)))?;
        }
        Ok(())
    }

    fn parts(self, vars: u32) -> Parts {
        let Builder {
            alloc,
            numbers: _,
            constraints,
            calls,
            rules,
            methods,
            sites,
            selects,
        } = self;
        Parts {
            constraints: List::from_vec(constraints),
            calls: List::from_vec(calls),
            methods: List::from_vec(methods),
            sites: List::from_vec(sites),
            subclasses: List::from_vec(Vec::new(alloc)),
            selects: List::from_vec(selects),
            outside_rules: List::from_vec(rules),
            fields: FIELDS + 3,
            vars: u64::from(vars),
        }
    }
}

fn number(count: usize) -> u32 {
    u32::try_from(count).unwrap_or(u32::MAX)
}

fn shuffle(items: &mut Vec<u32>, numbers: &mut Numbers) {
    for k in 0..items.len() {
        let other = numbers.below(number(items.len()).max(1)) as usize;
        if other < items.len() {
            items.swap(k, other);
        }
    }
}

/// A system of this shape, with a hundred variables and ten sites a method, and so many methods in a group. None where the parts
/// don't fit together.
pub fn generated(
    alloc: Global,
    shape: Shape,
    methods: u32,
    group: u32,
) -> Result<Option<System>, NoMemory> {
    let mut builder = Builder::new(alloc);
    let variables = methods.saturating_mul(crate::parts::VARIABLES);
    builder.add_methods(shape, methods, group.max(1))?;
    if shape == Shape::Ring {
        builder.add_ring(methods, variables)?;
    }
    let parts = builder.parts(variables);
    if !is_whole(&parts) {
        return Ok(None);
    }
    Ok(Some(system(parts, List::from_vec(Vec::new(alloc)))))
}
