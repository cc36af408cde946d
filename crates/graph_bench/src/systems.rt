// Generated call graphs, with recursion.
ghost use Rattle.std.specs.Prelude.{◌≡◌, ◌<◌, All, true, length};
ghost use Rattle.dep_form.specs.Within.{IsWithinSpot};
ghost use Rattle.points_to.specs.Sizes.{IsWhole};
ghost use Rattle.mod_ref.specs.Touched.{IsTouchIn, counts_in};

use bench_tools::numbers::Numbers;
use dep_form::call_site::CallSite;
use dep_form::rules::{Constraint, MethodVars, OutsideRule, Rule, SiteInfo, Spot, Touch, Var};
use dep_form::system::System;
use points_to::checked::{Parts, is_whole};
use slicer_ids::ids::{CallId, FieldId, MethodId, NoMemory, SiteId, Statement};
use slicer_ids::list::List;
use std::alloc::Global;

// ---- systems with touches
fn is_spot(parts: &Parts, spot: &Spot) -> bool
    ensures { result ≡ true → IsWithinSpot (counts_in parts.now) spot.now }
{
    match spot {
        Spot::Field(_, _) => false,
        Spot::Made(site, field) => {
            (site.0 as usize) < parts.sites.items().len() && field.0 < parts.fields
        }
        Spot::Static(v) => v.0 < parts.vars,
    }
}

fn is_touch(parts: &Parts, touch: &Touch) -> bool
    ensures { result ≡ true → IsTouchIn parts.now touch.now }
{
    (touch.place.method.0 as usize) < parts.methods.items().len() && is_spot(parts, &touch.spot)
}

fn are_touches(parts: &Parts, touches: &[Touch]) -> bool
    ensures { result ≡ true → All (IsTouchIn parts.now) touches.now }
{
    for touch in touches {
        if !is_touch(parts, touch) {
            return false;
        }
    }
    true
}

fn with_touches(parts: Parts, touches: List<Touch>) -> System
    requires whole { IsWhole parts }
    requires touches { All (IsTouchIn parts) touches }
{
    let Parts {
        constraints,
        calls,
        methods,
        sites,
        subclasses,
        selects,
        outside_rules,
        fields,
        vars,
    } = parts;
    System {
        constraints,
        calls,
        methods,
        sites,
        subclasses,
        selects,
        touches,
        outside_rules,
        fields,
        vars,
    }
}

// ---- parts
// Fields, with the elements, the length and the state.
const FIELDS: u32 = 23;

// Sites of a method.
const SITES: u32 = 10;

// Parts that are being added.
#[derive(Drop)]
struct Builder {
    alloc: Global,
    numbers: Numbers,
    constraints: Vec<Constraint>,
    calls: Vec<CallSite>,
    rules: Vec<OutsideRule>,
    methods: Vec<MethodVars>,
    sites: Vec<SiteInfo>,
    touches: Vec<Touch>,
}

fn number(count: usize) -> u32 {
    u32::try_from(count).unwrap_or(u32::MAX)
}

fn no_effect(alloc: Global) -> OutsideRule {
    OutsideRule {
        reads: List::from_vec(Vec::new(alloc)),
        written: List::from_vec(Vec::new(alloc)),
        states: List::from_vec(Vec::new(alloc)),
        arrays: List::from_vec(Vec::new(alloc)),
    }
}

// A call without arguments.
fn call_of(alloc: Global, method: u32) -> CallSite {
    CallSite {
        place: Some(Statement {
            method: MethodId(method),
            pc: 0,
        }),
        arguments: List::from_vec(Vec::new(alloc)),
        references: List::from_vec(Vec::new(alloc)),
        instance: false,
        result: None,
        exception: Var(u64::from(method)),
        fresh: None,
        refused: None,
    }
}

fn method_of(alloc: Global, method: u32) -> MethodVars {
    MethodVars {
        formals: List::from_vec(Vec::new(alloc)),
        result: None,
        thrown: Var(u64::from(method)),
        values: List::from_vec(Vec::new(alloc)),
        caught: List::from_vec(Vec::new(alloc)),
        native: false,
    }
}

impl Builder {
    fn new(alloc: Global) -> Builder {
        Builder {
            alloc,
            numbers: Numbers::new(1),
            constraints: Vec::new(alloc),
            calls: Vec::new(alloc),
            rules: Vec::new(alloc),
            methods: Vec::new(alloc),
            sites: Vec::new(alloc),
            touches: Vec::new(alloc),
        }
    }

    fn say(&mut self, method: u32, rule: Rule) -> Result<(), NoMemory> {
        let method = MethodId(method);
        self.constraints.push(Constraint { method, rule })?;
        Ok(())
    }

    fn add_call(&mut self, method: u32, target: u32) -> Result<(), NoMemory> {
        let call = CallId(number(self.calls.len()));
        let target = MethodId(target);
        self.calls.push(call_of(self.alloc, method))?;
        self.rules.push(no_effect(self.alloc))?;
        self.say(method, Rule::Direct { call, target })
    }

    // Calls of the next method of the group, of another one of it, and of one of the two groups below it in a tree of groups.
    fn add_calls(
        &mut self,
        method: u32,
        first: u32,
        count: u32,
        methods: u32,
    ) -> Result<(), NoMemory> {
        let next = method.saturating_add(1);
        let is_last = next >= first.saturating_add(count);
        self.add_call(method, if is_last { first } else { next })?;
        let other = first.saturating_add(self.numbers.below(count.max(1)));
        self.add_call(method, other)?;
        let below = (first / count.max(1))
            .saturating_mul(2)
            .saturating_add(1)
            .saturating_add(self.numbers.below(2))
            .saturating_mul(count)
            .saturating_add(self.numbers.below(count.max(1)));
        if below < methods {
            self.add_call(method, below)?;
        }
        Ok(())
    }

    // New objects, of which a field each is defined and another one used.
    fn add_sites(&mut self, method: u32) -> Result<(), NoMemory> {
        for k in 0..SITES {
            let site = number(self.sites.len());
            self.sites.push(SiteInfo {
                class: None,
                array: false,
                place: None,
                k: 0,
            })?;
            self.add_touch(method, true, SiteId(site), k % 3)?;
            self.add_touch(method, false, SiteId(site), k % 3)?;
        }
        Ok(())
    }

    fn add_touch(
        &mut self,
        method: u32,
        write: bool,
        site: SiteId,
        field: u32,
    ) -> Result<(), NoMemory> {
        self.touches.push(Touch {
            place: Statement {
                method: MethodId(method),
                pc: 0,
            },
            write,
            spot: Spot::Made(site, FieldId(field)),
        })?;
        Ok(())
    }

    fn add_methods(&mut self, methods: u32, group: u32) -> Result<(), NoMemory> {
        let mut first: u32 = 0;
        for method in 0..methods {
            if method >= first.saturating_add(group) {
                first = method;
            }
            let count = group.min(methods.saturating_sub(first));
            self.methods.push(method_of(self.alloc, method))?;
            self.add_sites(method)?;
            self.add_calls(method, first, count, methods)?;
            let target = MethodId(method);
            self.say(methods, Rule::Enter { target })?;
        }
        Ok(())
    }

    fn system(self, vars: u32) -> Option<System> {
        let Builder {
            alloc,
            numbers: _,
            constraints,
            calls,
            rules,
            methods,
            sites,
            touches,
        } = self;
        let parts = Parts {
            constraints: List::from_vec(constraints),
            calls: List::from_vec(calls),
            methods: List::from_vec(methods),
            sites: List::from_vec(sites),
            subclasses: List::from_vec(Vec::new(alloc)),
            selects: List::from_vec(Vec::new(alloc)),
            outside_rules: List::from_vec(rules),
            fields: FIELDS,
            vars: u64::from(vars),
        };
        if !is_whole(&parts) || !are_touches(&parts, touches.as_slice()) {
            return None;
        }
        Some(with_touches(parts, List::from_vec(touches)))
    }
}

/// A program of so many methods, which call each other in groups of so many; the groups make a tree. Each method has ten objects, of
/// which it defines and uses a field. None where the parts don't fit together.
pub fn generated(alloc: Global, methods: u32, group: u32) -> Result<Option<System>, NoMemory> {
    let mut builder = Builder::new(alloc);
    builder.add_methods(methods, group.max(1))?;
    Ok(builder.system(methods))
}
