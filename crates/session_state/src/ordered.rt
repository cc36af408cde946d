// Lists of statements in order.
ghost use Rattle.std.specs.Prelude.{◌≡◌, ◌≢◌, ◌≤◌, ◌<◌, ◌+◌, ◌||◌, OnErr, IfOk, Contains, length, vec_len, vec_capacity, true, false};
ghost use Rattle.slicer_ids.specs.declared.ids.Statement.{Statement};
ghost use Rattle.dep_form.specs.Orders.{RiseBy, statement_cmp};
ghost use Rattle.session_form.specs.States.{Gains};

use slicer_ids::ids::{NoMemory, Statement};

/// Adds a statement where it isn't there; whether it wasn't. Where there is room it doesn't fail.
pub fn add(list: &mut Vec<Statement>, s: Statement) -> Result<bool, NoMemory>
    requires { RiseBy statement_cmp (λ s. s) list.old.items }
    ensures gained { IfOk result (λ _. Gains list.old.items (λ t. t ≡ s) list.new.items) }
    ensures same { IfOk result (λ is_new. is_new ≡ false → list.new.items ≡ list.old.items) }
    ensures one_more { IfOk result (λ is_new. is_new ≡ true → length list.new.items ≡ length list.old.items + 1) }
    ensures rises { RiseBy statement_cmp (λ s. s) list.new.items }
    ensures kept { OnErr result (list.new.items ≡ list.old.items) }
    ensures room { OnErr result (vec_capacity list.old ≤ vec_len list.old) }
    ensures capacity { vec_capacity list.old ≤ vec_capacity list.new }
    ensures len { vec_len list.new ≤ vec_len list.old + 1 }
{
    match list.binary_search(&s) {
        Ok(_) => Ok(false),
        Err(at) => match list.insert(at, s) {
            Ok(()) => Ok(true),
            Err(_) => Err(NoMemory),
        },
    }
}

// Whether one of the two is so.
fn either(a: bool, b: bool) -> bool
    ensures { result ≡ (a || b) }
{
    if a { true } else { b }
}

/// Adds those of the statements that aren't there; whether there were some. Where there is no memory for all, none is added.
pub fn add_all(list: &mut Vec<Statement>, more: &[Statement]) -> Result<bool, NoMemory>
    requires { RiseBy statement_cmp (λ s. s) list.old.items }
    ensures gained { IfOk result (λ _. Gains list.old.items (Contains more.now) list.new.items) }
    ensures same { IfOk result (λ is_new. is_new ≡ false → list.new.items ≡ list.old.items) }
    ensures some_more { IfOk result (λ is_new. is_new ≡ true → length list.old.items < length list.new.items) }
    ensures rises { RiseBy statement_cmp (λ s. s) list.new.items }
    ensures kept { OnErr result (list.new.items ≡ list.old.items) }
{
    list.reserve(more.len())?;
    let mut is_new = false;
    for s in more {
        let added = add(list, *s)?;
        is_new = either(is_new, added);
    }
    Ok(is_new)
}
