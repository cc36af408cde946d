// What is made afresh where a descriptor says of which type.
ghost use Rattle.std.specs.Prelude.{◌≡◌, ◌++◌, ◌∷◌, ◌==◌, ℕ, List, Option, Some, None, not, option_map};
ghost use Rattle.std.specs.List.{prefix_len, AllByRecursion};
ghost use Rattle.class_form.specs.declared.types.BaseType.{BaseType};
ghost use Rattle.class_form.specs.declared.types.FieldType.{FieldType};
ghost use Rattle.class_form.specs.Names.{IsClassName};
ghost use Rattle.class_form.specs.Types.{IsBase, IsType, IsFieldType, IsArrayType, spell_base, spell_type, spell_types};
ghost use Rattle.jvm_names.specs.Reading.{StartsWithArguments, IsOutcome};
ghost use Rattle.site_tables.specs.Making.{class_name_of, IsFresh, IsFreshOf, IsResultOf, OutcomeFresh, IsNewOf, IsArrayOf};

use crate::fresh::Fresh;
use jvm_names::{is_array_type, is_class_name, is_field_type, is_method_type};

// How many dimensions the bytes begin with.
fn dimensions(bytes: &[u8]) -> usize
    ensures { result ≡ prefix_len (λ b. b == 91) bytes.now }
{
    let mut count = 0;
    for byte in bytes {
        if *byte != b'[' {
            return count;
        }
        count += 1;
    }
    count
}

// How many bytes come before the first `;`.
fn name_len(bytes: &[u8]) -> usize
    ensures { result ≡ prefix_len (λ b. not (b == 59)) bytes.now }
{
    let mut count = 0;
    for byte in bytes {
        if *byte == b';' {
            return count;
        }
        count += 1;
    }
    count
}

// The name of a class that the bytes begin with, and what follows its `;`.
fn class_in_front<'a>(bytes: &'a [u8]) -> (&'a [u8], &'a [u8])
    requires { (name : List ℕ) × (rest : List ℕ) × IsClassName name × (bytes.now ≡ name ++ 59 ∷ rest) }
    ensures { (name rest : List ℕ) → IsClassName name → bytes.now ≡ name ++ 59 ∷ rest → (result.0.now ≡ name) × (result.1.now ≡ rest) }
{
    let (name, rest) = bytes.split_at(name_len(bytes));
    let (_, rest) = rest.split_at(1);
    (name, rest)
}

// The name of the base type that the bytes begin with, where that is a class, and what follows it.
fn base_in_front<'a>(bytes: &'a [u8]) -> (Option<&'a [u8]>, &'a [u8])
    requires { (base : BaseType) × (rest : List ℕ) × IsBase base × (bytes.now ≡ spell_base base ++ rest) }
    ensures { (base : BaseType) (rest : List ℕ) → IsBase base → bytes.now ≡ spell_base base ++ rest → (option_map (λ c. c.now) result.0 ≡ class_name_of base) × (result.1.now ≡ rest) }
{
    let (letter, rest) = bytes.split_at(1);
    if letter[0] != b'L' {
        return (None, rest);
    }
    let (name, rest) = class_in_front(rest);
    (Some(name), rest)
}

// What a value of the type that the bytes begin with has afresh, and what follows the type.
fn type_in_front<'a>(bytes: &'a [u8]) -> (Fresh<'a>, &'a [u8])
    requires { (t : FieldType) × (rest : List ℕ) × IsType t × (bytes.now ≡ spell_type t ++ rest) }
    ensures { (t : FieldType) (rest : List ℕ) → IsType t → bytes.now ≡ spell_type t ++ rest → IsFresh t result.0 × (result.1.now ≡ rest) }
{
    let (brackets, rest) = bytes.split_at(dimensions(bytes));
    let (class, rest) = base_in_front(rest);
    let dims = brackets.len() as u8;
    (Fresh { dims, class }, rest)
}

// What follows the `)` after the types of arguments.
fn after_arguments(bytes: &[u8]) -> &[u8]
    requires { StartsWithArguments bytes.now }
    ensures { (ts : List FieldType) (rest : List ℕ) → AllByRecursion IsType ts → bytes.now ≡ spell_types ts ++ 41 ∷ rest → result.now ≡ rest }
{
    let mut rest = bytes;
    while rest[0] != b')' {
        let (_, after) = type_in_front(rest);
        rest = after;
    }
    let (_, rest) = rest.split_at(1);
    rest
}

// What the result of a method has afresh, of which the bytes are the descriptor; nothing for `V`.
fn of_outcome(bytes: &[u8]) -> Fresh<'_>
    requires { (r : Option FieldType) × IsOutcome bytes.now r }
    ensures { (r : Option FieldType) → IsOutcome bytes.now r → OutcomeFresh r result }
{
    if bytes[0] == b'V' {
        return Fresh::nothing();
    }
    let (fresh, _rest) = type_in_front(bytes);
    fresh
}

/// What a value of the type with this descriptor has afresh; nothing where the bytes are no descriptor of a type. Linear in
/// the bytes, without memory.
pub fn of_field(bytes: &[u8]) -> Fresh<'_>
    ensures { IsFreshOf (IsFieldType bytes.now) result }
{
    if !is_field_type(bytes) {
        return Fresh::nothing();
    }
    let (fresh, _rest) = type_in_front(bytes);
    fresh
}

/// What the result of a method with this descriptor has afresh; nothing where it has none, or the bytes are no descriptor of
/// a method. Linear in the bytes, without memory.
pub fn of_result(bytes: &[u8]) -> Fresh<'_>
    ensures { IsFreshOf (IsResultOf bytes.now) result }
{
    if !is_method_type(bytes) {
        return Fresh::nothing();
    }
    let (_, rest) = bytes.split_at(1);
    of_outcome(after_arguments(rest))
}

/// What `new` makes, where its constant has this text: an object of the class; an array, where it names one.
pub fn of_new(text: &[u8]) -> Fresh<'_>
    ensures { IsNewOf text.now result }
{
    if is_class_name(text) {
        return Fresh {
            dims: 0,
            class: Some(text),
        };
    }
    if is_array_type(text) {
        Fresh::arrays(1)
    } else {
        Fresh::nothing()
    }
}

/// So many arrays, where the text is the descriptor of an array.
pub fn of_array(text: &[u8], dims: u8) -> Fresh<'_>
    ensures { IsArrayOf text.now dims result }
{
    if is_array_type(text) {
        Fresh::arrays(dims)
    } else {
        Fresh::nothing()
    }
}
