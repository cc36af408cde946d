// Which fields and methods keep the rules.
ghost use Rattle.std.specs.Prelude.{◌≡◌, length};
ghost use Rattle.std.specs.List.{list_all};
ghost use Rattle.class_writer.specs.Tests.{is_field_member, are_fields, is_method_member, are_methods};
ghost use Rattle.const_pool.specs.Texts.{AreKindsOf};

use crate::check_attributes::{are_method_attributes, are_plain_attributes};
use crate::distinct::are_distinct;
use crate::numbers;
use class_form::class_file::Member;
use class_form::pool::Pool;
use class_rules::rules::{
    are_field_texts, are_method_texts, has_code_where_needed, has_locals_for_all, has_slots,
    is_of_kind,
};
use const_pool::texts::TextKinds;

fn is_field_member(pool: &Pool, kinds: &[TextKinds], field: &Member) -> bool
    requires { AreKindsOf pool.now kinds.now }
    ensures { result ≡ is_field_member pool.now field.now }
{
    numbers::of_member(field);
    are_field_texts(pool, kinds, field.name, field.descriptor)
        && are_plain_attributes(pool, field.attributes.items())
}

fn each_is_field(pool: &Pool, kinds: &[TextKinds], fields: &[Member]) -> bool
    requires { AreKindsOf pool.now kinds.now }
    ensures { result ≡ list_all (is_field_member pool.now) fields.now }
{
    fields
        .iter()
        .all(|field| is_field_member(pool, kinds, field))
}

/// Whether each is a field, and no two have one name and descriptor.
pub fn are_fields(pool: &Pool, kinds: &[TextKinds], fields: &[Member]) -> bool
    requires { AreKindsOf pool.now kinds.now }
    ensures { result ≡ are_fields pool.now fields.now }
{
    if fields.len() > 65535 {
        return false;
    }
    each_is_field(pool, kinds, fields) && are_distinct(pool, fields)
}

fn is_method_member(pool: &Pool, kinds: &[TextKinds], class_flags: u16, method: &Member) -> bool
    requires { AreKindsOf pool.now kinds.now }
    ensures { result ≡ is_method_member pool.now class_flags method.now }
{
    numbers::of_member(method);
    let attributes = method.attributes.items();
    are_method_texts(pool, kinds, method.name, method.descriptor)
        && has_slots(pool, kinds, method.flags, method.descriptor)
        && is_of_kind(pool, class_flags, method.flags, method.name)
        && are_method_attributes(pool, attributes)
        && has_code_where_needed(pool, method.flags, method.name, attributes)
        && has_locals_for_all(pool, kinds, method.flags, method.descriptor, attributes)
}

fn each_is_method(pool: &Pool, kinds: &[TextKinds], class_flags: u16, methods: &[Member]) -> bool
    requires { AreKindsOf pool.now kinds.now }
    ensures { result ≡ list_all (is_method_member pool.now class_flags) methods.now }
{
    methods.iter().all(|method| is_method_member(pool, kinds, class_flags, method))
}

/// Whether each is a method of a class of these flags, and no two have one name and descriptor.
pub fn are_methods(pool: &Pool, kinds: &[TextKinds], class_flags: u16, methods: &[Member]) -> bool
    requires { AreKindsOf pool.now kinds.now }
    ensures { result ≡ are_methods pool.now class_flags methods.now }
{
    if methods.len() > 65535 {
        return false;
    }
    each_is_method(pool, kinds, class_flags, methods) && are_distinct(pool, methods)
}
