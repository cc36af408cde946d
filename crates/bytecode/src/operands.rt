// What an instruction takes and leaves.
ghost use Rattle.std.specs.Prelude.{◌≡◌, ◌++◌, map, replicate, IfOk, IfErr};
ghost use Rattle.std.specs.Option.{option_map_or};
ghost use Rattle.class_form.specs.Types.{width};
ghost use Rattle.class_form.specs.Instructions.{value, base};
ghost use Rattle.class_form.specs.declared.code_error.CodeError.TheVariants.{NoMemory};
ghost use Rattle.bytecode.specs.Parts.{operands_of, slots_left};

use crate::descriptors::Described;
use class_form::body::Operand;
use class_form::code_error::CodeError;
use class_form::opcode::{Leaves, Takes};
use class_form::types::FieldType;
use std::alloc::Global;

/// The operands of an instruction, by the types of the constant that it names.
pub(crate) fn operands(
    alloc: Global,
    takes: Takes,
    dims: u8,
    described: &Described,
) -> Result<Vec<Operand>, CodeError>
    ensures taken { IfOk result (λ v. v.items ≡ operands_of dims takes described.now) }
    ensures memory { IfErr result (λ e. e ≡ NoMemory) }
{
    match takes {
        Takes::Nothing => Ok(Vec::new(alloc)),
        Takes::Local(slots) => Ok(vec![in alloc; value(slots)]?),
        Takes::Value(slots) => Ok(vec![in alloc; value(slots)]?),
        Takes::Two(below, above) => Ok(vec![in alloc; value(below), value(above)]?),
        Takes::Base => Ok(vec![in alloc; BASE]?),
        Takes::Element => Ok(vec![in alloc; BASE, BASE]?),
        Takes::ElementAndValue(slots) => Ok(vec![in alloc; BASE, BASE, value(slots)]?),
        Takes::FieldValue => field_value(alloc, described),
        Takes::BaseAndFieldValue => base_and_field_value(alloc, described),
        Takes::Arguments => arguments(alloc, described),
        Takes::ReceiverAndArguments => receiver_and_arguments(alloc, described),
        Takes::Lengths => lengths(alloc, dims),
    }
}

/// The slots that an instruction leaves, by the types of the constant that it names.
pub(crate) fn slots_left(leaves: Leaves, described: &Described) -> u8
    ensures { result ≡ slots_left leaves described.now }
{
    match leaves {
        Leaves::Slots(slots) => slots,
        Leaves::FieldValue => field_slots(described),
        Leaves::Result => result_slots(described),
    }
}

const BASE: Operand = Operand {
    slots: 1,
    base: true,
};

fn value(slots: u8) -> Operand
    ensures { result ≡ value slots }
{
    Operand { slots, base: false }
}

fn field_slots(described: &Described) -> u8
    ensures { result ≡ slots_left Leaves.FieldValue described.now }
{
    match described {
        Described::Field(field) => field.width(),
        _ => 0,
    }
}

fn result_slots(described: &Described) -> u8
    ensures { result ≡ slots_left Leaves.Result described.now }
{
    match described {
        Described::Call(method) => match &method.result {
            Some(result) => result.width(),
            None => 0,
        },
        _ => 0,
    }
}

fn field_value(alloc: Global, described: &Described) -> Result<Vec<Operand>, CodeError>
    ensures taken { IfOk result (λ v. v.items ≡ operands_of 0 Takes.FieldValue described.now) }
    ensures memory { IfErr result (λ e. e ≡ NoMemory) }
{
    match described {
        Described::Field(field) => Ok(vec![in alloc; value(field.width())]?),
        _ => Ok(Vec::new(alloc)),
    }
}

fn base_and_field_value(alloc: Global, described: &Described) -> Result<Vec<Operand>, CodeError>
    ensures taken { IfOk result (λ v. v.items ≡ operands_of 0 Takes.BaseAndFieldValue described.now) }
    ensures memory { IfErr result (λ e. e ≡ NoMemory) }
{
    match described {
        Described::Field(field) => Ok(vec![in alloc; BASE, value(field.width())]?),
        _ => Ok(Vec::new(alloc)),
    }
}

fn arguments(alloc: Global, described: &Described) -> Result<Vec<Operand>, CodeError>
    ensures taken { IfOk result (λ v. v.items ≡ operands_of 0 Takes.Arguments described.now) }
    ensures memory { IfErr result (λ e. e ≡ NoMemory) }
{
    match described {
        Described::Call(method) => values(Vec::new(alloc), method.arguments.items()),
        _ => Ok(Vec::new(alloc)),
    }
}

fn receiver_and_arguments(alloc: Global, described: &Described) -> Result<Vec<Operand>, CodeError>
    ensures taken { IfOk result (λ v. v.items ≡ operands_of 0 Takes.ReceiverAndArguments described.now) }
    ensures memory { IfErr result (λ e. e ≡ NoMemory) }
{
    match described {
        Described::Call(method) => { values(vec![in alloc; value(1)]?, method.arguments.items()) }
        _ => Ok(Vec::new(alloc)),
    }
}

// Some operands, and a value of each type after them.
fn values(operands: Vec<Operand>, types: &[FieldType]) -> Result<Vec<Operand>, CodeError>
    ensures taken { IfOk result (λ v. v.items ≡ operands.items ++ map (λ t. value (width t)) types.now) }
    ensures memory { IfErr result (λ e. e ≡ NoMemory) }
{
    let mut all = operands;
    for t in types {
        all.push(value(t.width()))?;
    }
    Ok(all)
}

fn lengths(alloc: Global, dims: u8) -> Result<Vec<Operand>, CodeError>
    ensures taken { IfOk result (λ v. v.items ≡ replicate dims (value 1)) }
    ensures memory { IfErr result (λ e. e ≡ NoMemory) }
{
    Ok(vec![in alloc; value(1); dims as usize]?)
}
