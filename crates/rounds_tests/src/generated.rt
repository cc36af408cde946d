// Generated small systems.

use crate::numbers::{Numbers, number};
use dep_form::call_site::CallSite;
use dep_form::rules::{Constraint, MethodVars, OutsideRule, Rule, SiteInfo, Var};
use dep_form::system::System;
use points_to::checked::{Parts, is_whole, system};
use slicer_ids::ids::{CallId, ClassId, FieldId, MethodId, NoMemory, SiteId};
use slicer_ids::list::List;
use std::alloc::Global;

// The root has the number after them.
const METHODS: u32 = 3;

const SITES: u32 = 4;

const CLASSES: u32 = 3;

const SIGNATURES: u32 = 2;

const CALLS: u32 = 5;
// Two fields, then the elements, the length and the state.
const FIELDS: u32 = 5;
// Constraints that are neither entries nor of calls.
const FLOWS: u32 = 24;

// What parts are drawn from.
#[derive(Drop)]
struct Lots {
    alloc: Global,
    numbers: Numbers,
    variables: u32,
}

impl Lots {
    fn variable(&mut self) -> Var {
        Var(u64::from(self.numbers.below(self.variables)))
    }

    fn if_variable(&mut self) -> Option<Var> {
        if self.numbers.once_in(4) {
            None
        } else {
            Some(self.variable())
        }
    }

    fn site(&mut self) -> SiteId {
        SiteId(self.numbers.below(SITES))
    }

    fn if_site(&mut self) -> Option<SiteId> {
        if self.numbers.once_in(3) {
            None
        } else {
            Some(self.site())
        }
    }

    fn class(&mut self) -> ClassId {
        ClassId(self.numbers.below(CLASSES))
    }

    fn if_class(&mut self) -> Option<ClassId> {
        if self.numbers.once_in(4) {
            None
        } else {
            Some(self.class())
        }
    }

    fn method(&mut self) -> MethodId {
        MethodId(self.numbers.below(METHODS))
    }

    fn if_method(&mut self) -> Option<MethodId> {
        if self.numbers.once_in(4) {
            None
        } else {
            Some(self.method())
        }
    }

    // A method, or the root, twice as often as any method.
    fn place(&mut self) -> MethodId {
        MethodId(self.numbers.below(METHODS + 2).min(METHODS))
    }

    fn field(&mut self) -> FieldId {
        FieldId(self.numbers.below(FIELDS))
    }

    fn info(&mut self) -> SiteInfo {
        SiteInfo {
            class: self.if_class(),
            array: self.numbers.once_in(4),
            place: None,
            k: 0,
        }
    }

    // A method of two formals.
    fn method_vars(&mut self) -> Result<MethodVars, NoMemory> {
        let formals = vec![in self.alloc; self.variable(), self.variable()]?;
        Ok(MethodVars {
            formals: List::from_vec(formals),
            result: self.if_variable(),
            thrown: self.variable(),
            values: List::from_vec(Vec::new(self.alloc)),
            caught: List::from_vec(Vec::new(self.alloc)),
            native: false,
        })
    }

    // A static call without arguments.
    fn plain_call(&mut self) -> CallSite {
        CallSite {
            place: None,
            arguments: List::from_vec(Vec::new(self.alloc)),
            references: List::from_vec(Vec::new(self.alloc)),
            instance: false,
            result: self.if_variable(),
            exception: self.variable(),
            fresh: self.if_site(),
            refused: None,
        }
    }

    // A call of three arguments.
    fn full_call(&mut self) -> Result<CallSite, NoMemory> {
        let arguments = vec![in self.alloc; self.variable(), self.variable(), self.variable()]?;
        let references = vec![in self.alloc; true, true, true]?;
        Ok(CallSite {
            place: None,
            arguments: List::from_vec(arguments),
            references: List::from_vec(references),
            instance: !self.numbers.once_in(3),
            result: self.if_variable(),
            exception: self.variable(),
            fresh: self.if_site(),
            refused: None,
        })
    }

    // Some of so many arguments, by their numbers.
    fn arguments(&mut self, count: u8) -> Result<List<u8>, NoMemory> {
        let mut list = Vec::new(self.alloc);
        for k in 0..count {
            if self.numbers.once_in(2) {
                list.push(k)?;
            }
        }
        Ok(List::from_vec(list))
    }

    // A rule of a call of so many arguments.
    fn outside_rule(&mut self, count: u8) -> Result<OutsideRule, NoMemory> {
        Ok(OutsideRule {
            reads: self.arguments(count)?,
            written: self.arguments(count)?,
            states: self.arguments(count)?,
            arrays: self.arguments(count)?,
        })
    }

    fn alloc_rule(&mut self) -> Rule {
        Rule::Alloc {
            to: self.variable(),
            site: self.site(),
        }
    }

    fn hold_rule(&mut self) -> Rule {
        Rule::Hold {
            outer: self.site(),
            inner: self.site(),
        }
    }

    fn copy_rule(&mut self, keep: Option<ClassId>) -> Rule {
        Rule::Copy {
            from: self.variable(),
            to: self.variable(),
            keep,
        }
    }

    fn load_rule(&mut self) -> Rule {
        Rule::Load {
            base: self.variable(),
            field: self.field(),
            to: self.variable(),
        }
    }

    fn store_rule(&mut self) -> Rule {
        Rule::Store {
            base: self.variable(),
            field: self.field(),
            from: self.variable(),
        }
    }

    fn filter_rule(&mut self) -> Rule {
        let keep = self.class();
        self.copy_rule(Some(keep))
    }

    fn flow_rule(&mut self) -> Rule {
        match self.numbers.below(8) {
            0 => self.hold_rule(),
            1 => self.filter_rule(),
            2 => self.copy_rule(None),
            3 | 4 => self.load_rule(),
            5 | 6 => self.store_rule(),
            _ => self.alloc_rule(),
        }
    }

    fn direct_rule(&mut self, call: CallId) -> Rule {
        let target = self.method();
        Rule::Direct { call, target }
    }

    fn virtual_rule(&mut self, call: CallId) -> Rule {
        let signature = self.numbers.below(SIGNATURES);
        Rule::Virtual { call, signature }
    }

    fn call_rule(&mut self, call: CallId) -> Rule {
        match self.numbers.below(4) {
            0 => self.direct_rule(call),
            1 => Rule::OutsideDirect { call },
            _ => self.virtual_rule(call),
        }
    }

    fn select(&mut self) -> (u32, ClassId, Option<MethodId>) {
        let signature = self.numbers.below(SIGNATURES);
        (signature, self.class(), self.if_method())
    }
}

// Parts that are being added.
#[derive(Drop)]
struct Builder {
    constraints: Vec<Constraint>,
    calls: Vec<CallSite>,
    rules: Vec<OutsideRule>,
    methods: Vec<MethodVars>,
    sites: Vec<SiteInfo>,
    subclasses: Vec<(ClassId, ClassId)>,
    selects: Vec<(u32, ClassId, Option<MethodId>)>,
}

impl Builder {
    fn new(alloc: Global) -> Builder {
        Builder {
            constraints: Vec::new(alloc),
            calls: Vec::new(alloc),
            rules: Vec::new(alloc),
            methods: Vec::new(alloc),
            sites: Vec::new(alloc),
            subclasses: Vec::new(alloc),
            selects: Vec::new(alloc),
        }
    }

    fn say(&mut self, method: MethodId, rule: Rule) -> Result<(), NoMemory> {
        self.constraints.push(Constraint { method, rule })?;
        Ok(())
    }

    fn add_methods(&mut self, lots: &mut Lots) -> Result<(), NoMemory> {
        for _ in 0..METHODS {
            self.methods.push(lots.method_vars()?)?;
        }
        Ok(())
    }

    fn add_sites(&mut self, lots: &mut Lots) -> Result<(), NoMemory> {
        for _ in 0..SITES {
            self.sites.push(lots.info())?;
        }
        Ok(())
    }

    fn add_classes(&mut self, lots: &mut Lots) -> Result<(), NoMemory> {
        for _ in 0..CLASSES {
            self.subclasses.push((lots.class(), lots.class()))?;
        }
        Ok(())
    }

    fn add_selects(&mut self, lots: &mut Lots) -> Result<(), NoMemory> {
        for _ in 0..CLASSES + SIGNATURES {
            self.selects.push(lots.select())?;
        }
        Ok(())
    }

    // A method that the root enters, and what it has to begin with.
    fn add_start(&mut self, lots: &mut Lots) -> Result<(), NoMemory> {
        let target = lots.method();
        self.say(MethodId(METHODS), Rule::Enter { target })?;
        for _ in 0..4u32 {
            let rule = lots.alloc_rule();
            self.say(MethodId(METHODS), rule)?;
        }
        Ok(())
    }

    fn add_flows(&mut self, lots: &mut Lots) -> Result<(), NoMemory> {
        for _ in 0..FLOWS {
            let method = lots.place();
            let rule = lots.flow_rule();
            self.say(method, rule)?;
        }
        Ok(())
    }

    fn add_call(&mut self, lots: &mut Lots) -> Result<(), NoMemory> {
        if lots.numbers.once_in(5) {
            self.calls.push(lots.plain_call())?;
            self.rules.push(lots.outside_rule(0)?)?;
        } else {
            self.calls.push(lots.full_call()?)?;
            self.rules.push(lots.outside_rule(3)?)?;
        }
        Ok(())
    }

    fn add_calls(&mut self, lots: &mut Lots) -> Result<(), NoMemory> {
        for _ in 0..CALLS {
            let call = CallId(number(self.calls.len()));
            self.add_call(lots)?;
            let method = lots.place();
            let rule = lots.call_rule(call);
            self.say(method, rule)?;
        }
        Ok(())
    }

    fn add_all(&mut self, lots: &mut Lots) -> Result<(), NoMemory> {
        self.add_methods(lots)?;
        self.add_sites(lots)?;
        self.add_classes(lots)?;
        self.add_selects(lots)?;
        self.add_calls(lots)?;
        self.add_flows(lots)?;
        self.add_start(lots)
    }

    fn parts(self, variables: u32) -> Parts {
        let Builder {
            constraints,
            calls,
            rules,
            methods,
            sites,
            subclasses,
            selects,
        } = self;
        Parts {
            constraints: List::from_vec(constraints),
            calls: List::from_vec(calls),
            methods: List::from_vec(methods),
            sites: List::from_vec(sites),
            subclasses: List::from_vec(subclasses),
            selects: List::from_vec(selects),
            outside_rules: List::from_vec(rules),
            fields: FIELDS,
            vars: u64::from(variables),
        }
    }
}

fn lots_of(alloc: Global, seed: u64) -> Lots {
    let mut numbers = Numbers::new(seed);
    let variables = numbers.below(5).saturating_add(8);
    Lots {
        alloc,
        numbers,
        variables,
    }
}

/// The system of a seed: three methods, 8 to 12 variables, four sites and five calls. None where the parts don't fit together.
pub fn generated(alloc: Global, seed: u64) -> Result<Option<System>, NoMemory> {
    let mut lots = lots_of(alloc, seed);
    let mut builder = Builder::new(alloc);
    builder.add_all(&mut lots)?;
    let parts = builder.parts(lots.variables);
    if !is_whole(&parts) {
        return Ok(None);
    }
    Ok(Some(system(parts, List::from_vec(Vec::new(alloc)))))
}
