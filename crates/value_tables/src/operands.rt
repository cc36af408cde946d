// What operands may be.
ghost use Rattle.std.specs.Prelude.{◌≡◌, ◌↔◌, IfOk, IsTrue, MatchOption, OnOk, ℕ};
ghost use Rattle.slicer_ids.specs.Order.{SiteBefore};
ghost use Rattle.slicer_ids.specs.Sets.{IsOrderedListOf};
ghost use Rattle.worklists.specs.Growth.{FromOne};
ghost use Rattle.mod_ref.specs.Gains.{Gains};
ghost use Rattle.program_form.specs.Values.{PassesOn};
ghost use Rattle.value_tables.specs.Methods.{IsMethod};
ghost use Rattle.value_tables.specs.Values.{DefHas, MadeHas, OperandHas, PassedHas, SlotHas, UseHas};

use crate::looking::{numbered, var_of};
use crate::method::Method;
use crate::sites::{add_found, in_order};
use class_form::body::{Def, Point, SlotUse};
use slicer_ids::ids::{NoMemory, SiteId};
use std::alloc::Global;

// Adds what the variable of a definition may be.
fn add_def(x: &Method<'_>, sites: &mut Vec<SiteId>, def: Def) -> Result<(), NoMemory>
    requires { IsMethod x.now }
    ensures { OnOk result (Gains sites.old.items sites.new.items (DefHas x.now def)) }
{
    add_found(sites, x.solution, var_of(x.vars, def))
}

// .. the variables of definitions.
fn add_defs(x: &Method<'_>, sites: &mut Vec<SiteId>, defs: &[Def]) -> Result<(), NoMemory>
    requires { IsMethod x.now }
    ensures { OnOk result (Gains sites.old.items sites.new.items (FromOne (DefHas x.now) defs.now)) }
{
    for def in defs {
        add_def(x, sites, *def)?;
    }
    Ok(())
}

// .. of those that hold in a slot.
fn add_slot(x: &Method<'_>, sites: &mut Vec<SiteId>, pc: u16, slot: u32) -> Result<(), NoMemory>
    requires { IsMethod x.now }
    ensures { OnOk result (Gains sites.old.items sites.new.items (SlotHas x.now pc slot)) }
{
    add_defs(x, sites, x.body.reach.at(pc, slot))
}

fn is_of(slot_use: &SlotUse, i: u8) -> bool
    ensures { IsTrue result ↔ (slot_use.now.operand ≡ i) }
{
    slot_use.operand == i
}

// .. in a slot of the operand.
fn add_use(
    x: &Method<'_>,
    sites: &mut Vec<SiteId>,
    pc: u16,
    i: u8,
    slot_use: &SlotUse,
) -> Result<(), NoMemory>
    requires { IsMethod x.now }
    ensures { OnOk result (Gains sites.old.items sites.new.items (UseHas x.now pc i slot_use.now)) }
{
    if is_of(slot_use, i) {
        add_slot(x, sites, pc, slot_use.slot)
    } else {
        Ok(())
    }
}

// Adds what an operand of the statement at a point may be.
fn add_operand(
    x: &Method<'_>,
    sites: &mut Vec<SiteId>,
    point: &Point,
    i: u8,
) -> Result<(), NoMemory>
    requires { IsMethod x.now }
    ensures { OnOk result (Gains sites.old.items sites.new.items (OperandHas x.now point.now i)) }
{
    for slot_use in point.uses.items() {
        add_use(x, sites, point.pc, i, slot_use)?;
    }
    Ok(())
}

/// What an operand of the statement at a point may be, in order.
pub fn operand_sites(
    alloc: Global,
    x: &Method<'_>,
    point: &Point,
    i: u8,
) -> Result<Vec<SiteId>, NoMemory>
    requires { IsMethod x.now }
    ensures { IfOk result (λ hs. IsOrderedListOf SiteBefore hs.items (OperandHas x.now point.now i)) }
{
    let mut sites = Vec::new(alloc);
    add_operand(x, &mut sites, point, i)?;
    Ok(in_order(sites))
}

// The operand that an instruction passes on.
fn passed(op: u8) -> Option<u8>
    ensures { MatchOption result ((n : ℕ) → PassesOn n op → ⊥) (λ i. PassesOn i op × ((n : ℕ) → PassesOn n op → n ≡ i)) }
{
    match op {
        54..=78 | 172..=176 | 179 | 191 => Some(0),
        181 => Some(1),
        79..=86 => Some(2),
        _ => None,
    }
}

/// Adds what the statement at a point passes on.
pub fn add_passed(x: &Method<'_>, sites: &mut Vec<SiteId>, point: &Point) -> Result<(), NoMemory>
    requires { IsMethod x.now }
    ensures { OnOk result (Gains sites.old.items sites.new.items (PassedHas x.now point.now)) }
{
    match passed(point.op) {
        Some(i) => add_operand(x, sites, point, i),
        None => Ok(()),
    }
}

/// Adds what the variable of the value of a statement may be.
pub fn add_made(x: &Method<'_>, sites: &mut Vec<SiteId>, pc: u16) -> Result<(), NoMemory>
    requires { IsMethod x.now }
    ensures { OnOk result (Gains sites.old.items sites.new.items (MadeHas x.now pc)) }
{
    add_found(sites, x.solution, numbered(x.vars.values.items(), pc))
}
