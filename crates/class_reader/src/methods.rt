// Fields and methods.
ghost use Rattle.std.specs.Prelude.{◌≡◌, ◌∷◌, ◌++◌, [], IfOk, IsSome};
ghost use Rattle.class_form.specs.Pools.{utf_at};
ghost use Rattle.class_reader.specs.Numbers.{AreNumbersOf, IsSeen, AreTexts, names_of};
ghost use Rattle.byte_form.specs.States.{state};
ghost use Rattle.byte_form.specs.Reading.{Gives, list_at};
ghost use Rattle.class_form.specs.ClassReading.{read_counted, read_other_content, read_content, read_method_attribute, read_field, read_method};
ghost use Rattle.const_pool.specs.Texts.{AreKindsOf};

use crate::attributes::{kept, plain_attributes};
use crate::code::code;
use crate::numbers::is_new;
use byte_form::cursor::Cursor;
use byte_form::error::ItemError;
use class_form::class_file::{Attribute, Content, Member};
use class_form::pool::Pool;
use class_rules::rules::{
    are_field_texts, are_method_texts, has_code_where_needed, has_locals_for_all, has_slots,
    is_named, is_of_kind,
};
use const_pool::is_utf;
use const_pool::texts::TextKinds;
use slicer_ids::list::List;
use std::alloc::Global;
use std::collections::BTreeSet;

#[tactic(auto, unfolding(class_form::specs::ClassReading::read_other_content))]
fn other(alloc: Global, cursor: &mut Cursor<'_>) -> Result<Content, ItemError>
    ensures { Gives (λ x. x) result (state cursor.new) (read_other_content (state cursor.old)) }
{
    let content = kept(alloc, cursor)?;
    Ok(Content::Other(content))
}

#[tactic(auto, unfolding(class_form::specs::ClassReading::read_content))]
fn content(
    alloc: Global,
    pool: &Pool,
    at: u32,
    name: u16,
    before: &[Attribute],
    cursor: &mut Cursor<'_>,
) -> Result<Content, ItemError>
    ensures { Gives (λ x. x) result (state cursor.new) (read_content pool.now at name before.now (state cursor.old)) }
{
    if is_named(pool, name, b"Code") {
        code(alloc, pool, at, before, cursor)
    } else {
        other(alloc, cursor)
    }
}

#[tactic(auto, unfolding(class_form::specs::ClassReading::read_method_attribute))]
fn method_attribute(
    alloc: Global,
    pool: &Pool,
    before: &[Attribute],
    cursor: &mut Cursor<'_>,
) -> Result<Attribute, ItemError>
    ensures { Gives (λ x. x) result (state cursor.new) (read_method_attribute pool.now before.now (state cursor.old)) }
{
    let at = cursor.at();
    let name = cursor.u2()?;
    if !is_utf(pool, name) {
        return Err(ItemError::Broken { rule: 11, at });
    }
    let content = content(alloc, pool, at, name, before, cursor)?;
    Ok(Attribute { name, content })
}

fn attribute_list(
    alloc: Global,
    count: u16,
    pool: &Pool,
    cursor: &mut Cursor<'_>,
) -> Result<Vec<Attribute>, ItemError>
    ensures { Gives (λ v. v.items) result (state cursor.new) (list_at (read_method_attribute pool.now) count [] (state cursor.old)) }
{
    let mut items = Vec::new(alloc);
    for _ in 0..count {
        let next = method_attribute(alloc, pool, &items, cursor)?;
        items.push(next)?;
    }
    Ok(items)
}

fn method_attributes(
    alloc: Global,
    pool: &Pool,
    cursor: &mut Cursor<'_>,
) -> Result<List<Attribute>, ItemError>
    ensures { Gives (λ x. x) result (state cursor.new) (read_counted (read_method_attribute pool.now) (state cursor.old)) }
{
    let count = cursor.u2()?;
    let items = attribute_list(alloc, count, pool, cursor)?;
    Ok(List::from_vec(items))
}

#[tactic(auto, unfolding(class_form::specs::ClassReading::read_field))]
fn field(
    alloc: Global,
    pool: &Pool,
    kinds: &[TextKinds],
    numbers: &[usize],
    before: &[Member],
    seen: &mut BTreeSet<(usize, usize)>,
    cursor: &mut Cursor<'_>,
) -> Result<Member, ItemError>
    requires kinds { AreKindsOf pool.now kinds.now }
    requires numbers { AreNumbersOf pool.now numbers.now }
    requires seen { IsSeen numbers.now seen.old (names_of before.now) }
    requires texts { AreTexts pool.now (names_of before.now) }
    ensures gives { Gives (λ x. x) result (state cursor.new) (read_field pool.now before.now (state cursor.old)) }
    ensures seen { IfOk result (λ m. IsSeen numbers.now seen.new (names_of before.now ++ (m.name, m.descriptor) ∷ [])) }
    ensures texts { IfOk result (λ m. IsSome (utf_at pool.now m.name) × IsSome (utf_at pool.now m.descriptor)) }
{
    let at = cursor.at();
    let flags = cursor.u2()?;
    let name = cursor.u2()?;
    let descriptor = cursor.u2()?;
    if !are_field_texts(pool, kinds, name, descriptor) {
        return Err(ItemError::Broken { rule: 9, at });
    }
    if !is_new(pool, numbers, before, seen, name, descriptor)? {
        return Err(ItemError::Broken { rule: 10, at });
    }
    let attributes = plain_attributes(alloc, pool, cursor)?;
    Ok(Member {
        flags,
        name,
        descriptor,
        attributes,
    })
}

fn field_list(
    alloc: Global,
    count: u16,
    pool: &Pool,
    kinds: &[TextKinds],
    numbers: &[usize],
    cursor: &mut Cursor<'_>,
) -> Result<Vec<Member>, ItemError>
    requires kinds { AreKindsOf pool.now kinds.now }
    requires numbers { AreNumbersOf pool.now numbers.now }
    ensures { Gives (λ v. v.items) result (state cursor.new) (list_at (read_field pool.now) count [] (state cursor.old)) }
{
    let mut seen = BTreeSet::new(alloc);
    let mut items = Vec::new(alloc);
    for _ in 0..count {
        let next = field(alloc, pool, kinds, numbers, &items, &mut seen, cursor)?;
        items.push(next)?;
    }
    Ok(items)
}

/// The fields of a class.
pub fn fields(
    alloc: Global,
    pool: &Pool,
    kinds: &[TextKinds],
    numbers: &[usize],
    cursor: &mut Cursor<'_>,
) -> Result<List<Member>, ItemError>
    requires kinds { AreKindsOf pool.now kinds.now }
    requires numbers { AreNumbersOf pool.now numbers.now }
    ensures { Gives (λ x. x) result (state cursor.new) (read_counted (read_field pool.now) (state cursor.old)) }
{
    let count = cursor.u2()?;
    let items = field_list(alloc, count, pool, kinds, numbers, cursor)?;
    Ok(List::from_vec(items))
}

#[tactic(auto, unfolding(class_form::specs::ClassReading::read_method))]
fn method(
    alloc: Global,
    pool: &Pool,
    kinds: &[TextKinds],
    numbers: &[usize],
    class_flags: u16,
    before: &[Member],
    seen: &mut BTreeSet<(usize, usize)>,
    cursor: &mut Cursor<'_>,
) -> Result<Member, ItemError>
    requires kinds { AreKindsOf pool.now kinds.now }
    requires numbers { AreNumbersOf pool.now numbers.now }
    requires seen { IsSeen numbers.now seen.old (names_of before.now) }
    requires texts { AreTexts pool.now (names_of before.now) }
    ensures gives { Gives (λ x. x) result (state cursor.new) (read_method pool.now class_flags before.now (state cursor.old)) }
    ensures seen { IfOk result (λ m. IsSeen numbers.now seen.new (names_of before.now ++ (m.name, m.descriptor) ∷ [])) }
    ensures texts { IfOk result (λ m. IsSome (utf_at pool.now m.name) × IsSome (utf_at pool.now m.descriptor)) }
{
    let at = cursor.at();
    let flags = cursor.u2()?;
    let name = cursor.u2()?;
    let descriptor = cursor.u2()?;
    if !are_method_texts(pool, kinds, name, descriptor) {
        return Err(ItemError::Broken { rule: 9, at });
    }
    if !is_new(pool, numbers, before, seen, name, descriptor)? {
        return Err(ItemError::Broken { rule: 10, at });
    }
    if !has_slots(pool, kinds, flags, descriptor) {
        return Err(ItemError::Broken { rule: 17, at });
    }
    if !is_of_kind(pool, class_flags, flags, name) {
        return Err(ItemError::Broken { rule: 18, at });
    }
    let attributes = method_attributes(alloc, pool, cursor)?;
    if !has_code_where_needed(pool, flags, name, attributes.items()) {
        return Err(ItemError::Broken { rule: 13, at });
    }
    if !has_locals_for_all(pool, kinds, flags, descriptor, attributes.items()) {
        return Err(ItemError::Broken { rule: 17, at });
    }
    Ok(Member {
        flags,
        name,
        descriptor,
        attributes,
    })
}

fn method_list(
    alloc: Global,
    count: u16,
    pool: &Pool,
    kinds: &[TextKinds],
    numbers: &[usize],
    class_flags: u16,
    cursor: &mut Cursor<'_>,
) -> Result<Vec<Member>, ItemError>
    requires kinds { AreKindsOf pool.now kinds.now }
    requires numbers { AreNumbersOf pool.now numbers.now }
    ensures { Gives (λ v. v.items) result (state cursor.new) (list_at (read_method pool.now class_flags) count [] (state cursor.old)) }
{
    let mut seen = BTreeSet::new(alloc);
    let mut items = Vec::new(alloc);
    for _ in 0..count {
        let next = method(
            alloc,
            pool,
            kinds,
            numbers,
            class_flags,
            &items,
            &mut seen,
            cursor,
        )?;
        items.push(next)?;
    }
    Ok(items)
}

/// The methods of a class of these flags.
pub fn methods(
    alloc: Global,
    pool: &Pool,
    kinds: &[TextKinds],
    numbers: &[usize],
    class_flags: u16,
    cursor: &mut Cursor<'_>,
) -> Result<List<Member>, ItemError>
    requires kinds { AreKindsOf pool.now kinds.now }
    requires numbers { AreNumbersOf pool.now numbers.now }
    ensures { Gives (λ x. x) result (state cursor.new) (read_counted (read_method pool.now class_flags) (state cursor.old)) }
{
    let count = cursor.u2()?;
    let items = method_list(alloc, count, pool, kinds, numbers, class_flags, cursor)?;
    Ok(List::from_vec(items))
}
