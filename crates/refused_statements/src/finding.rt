// Where a statement's names and its line stand.
ghost use Rattle.std.specs.Prelude.{◌≡◌, IfSome, option_map, slice_get};
ghost use Rattle.refused_statements.specs.Saying.{IsLineIn};

use dep_form::texts::MethodText;
use slicer_ids::ids::{ClassId, MethodId};
use slicer_ids::name::Name;

/// The texts of a method; none past the last.
pub fn text_at(texts: &[MethodText], m: MethodId) -> Option<&MethodText>
    ensures { option_map (λ x. x.now) result ≡ slice_get texts.now m.0 }
{
    texts.get(m.0 as usize)
}

/// The name of a class; none past the last.
pub fn name_at(names: &[Name], class: ClassId) -> Option<&Name>
    ensures { option_map (λ x. x.now) result ≡ slice_get names.now class.0 }
{
    names.get(class.0 as usize)
}

fn item_at(lines: &[(u16, Option<u16>)], k: usize) -> Option<(u16, Option<u16>)>
    ensures { result ≡ slice_get lines.now k }
{
    match lines.get(k) {
        Some(item) => Some(*item),
        None => None,
    }
}

// The line of what stands there, where it is that of the program counter.
fn line_of(item: (u16, Option<u16>), pc: u16) -> Option<Option<u16>>
    ensures { IfSome result (λ line. (item.0 ≡ pc) × (item.1 ≡ line)) }
{
    if item.0 == pc { Some(item.1) } else { None }
}

/// The line of the statement at a program counter, or that it has none; none where no statement stands there. Found by halving.
pub fn line_in(lines: &[(u16, Option<u16>)], pc: u16) -> Option<Option<u16>>
    ensures { IfSome result (λ line. IsLineIn lines.now pc line) }
{
    let k = lines.partition_point(|item| item.0 < pc);
    match item_at(lines, k) {
        Some(item) => line_of(item, pc),
        None => None,
    }
}
