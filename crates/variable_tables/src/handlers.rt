// The handlers of a method.
ghost use Rattle.std.specs.Prelude.{◌≡◌, ◌↔◌, ℕ, AllPairs, IfOk, OnOk, Contains};
ghost use Rattle.slicer_ids.specs.Sets.{IsOrderedListOf};
ghost use Rattle.worklists.specs.Growth.{Grows, FromOne};
ghost use Rattle.variable_tables.specs.Statements.{Rises, IsHandlerPc, IsPcOfHandler, IsPcOfAttribute};

use class_form::class_file::{Attribute, Content, Handler, Member};
use slicer_ids::ids::NoMemory;
use std::alloc::Global;

// Adds the handlers of an exception table.
fn push_handlers(handlers: &[Handler], pcs: &mut Vec<u16>) -> Result<(), NoMemory>
    ensures { OnOk result (Grows pcs.old.items pcs.new.items (FromOne IsPcOfHandler handlers.now)) }
{
    for handler in handlers {
        pcs.push(handler.handler)?;
    }
    Ok(())
}

// Adds those of an attribute.
fn push_attribute(attribute: &Attribute, pcs: &mut Vec<u16>) -> Result<(), NoMemory>
    ensures { OnOk result (Grows pcs.old.items pcs.new.items (IsPcOfAttribute attribute.now)) }
{
    match &attribute.content {
        Content::Code(code) => push_handlers(code.handlers.items(), pcs),
        Content::Other(_) => Ok(()),
    }
}

// Those of a method, in the order of its exception table.
fn all_handlers(alloc: Global, method: &Member) -> Result<Vec<u16>, NoMemory>
    ensures { IfOk result (λ pcs. (pc : ℕ) → Contains pcs.items pc ↔ FromOne IsPcOfAttribute method.now.attributes pc) }
{
    let mut pcs = Vec::new(alloc);
    for attribute in method.attributes.items() {
        push_attribute(attribute, &mut pcs)?;
    }
    Ok(pcs)
}

// The same numbers, in order, each once.
fn in_order(pcs: Vec<u16>) -> Vec<u16>
    ensures order { AllPairs Rises result.items }
    ensures members { (pc : ℕ) → Contains result.items pc ↔ Contains pcs.items pc }
{
    let mut pcs = pcs;
    pcs.sort_unstable();
    pcs.dedup();
    pcs
}

/// The program counters of a method's handlers, in order, each once.
pub(crate) fn handlers_of(alloc: Global, method: &Member) -> Result<Vec<u16>, NoMemory>
    ensures { IfOk result (λ pcs. IsOrderedListOf Rises pcs.items (IsHandlerPc method.now)) }
{
    let pcs = all_handlers(alloc, method)?;
    Ok(in_order(pcs))
}
