// Whether an explanation is the one that was worked out by hand.
ghost use Rattle.std.specs.Prelude.{◌≡◌, ◌<◌};

use crate::explained::explained;
use dep_form::access::Explanation;
use dep_form::facts::Facts;
use slicer_ids::ids::{NoMemory, SiteId, Statement};
use slicer_ids::steps::Steps;
use std::alloc::Global;
use std::marker::Brand;
use std::process::Abort;
use std::sync::ledger::{Blank, Ledger};

/// The sites and statements of an explanation.
#[derive(Clone, Copy)]
pub struct Expected<'a> {
    pub objects: &'a [SiteId],
    pub left: &'a [Statement],
    pub right: &'a [Statement],
}

/// No object, and so no statement.
pub const NOTHING: Expected<'static> = Expected {
    objects: &[],
    left: &[],
    right: &[],
};

fn is_same(explanation: &Explanation, expected: &Expected<'_>) -> bool {
    explanation.objects.items() == expected.objects
        && explanation.left.items() == expected.left
        && explanation.right.items() == expected.right
}

fn explains_in<L: Ledger>(
    rt: &impl Abort,
    alloc: Global,
    f: &Facts,
    a: Statement,
    b: Statement,
    expected: &Expected<'_>,
    blank: Blank,
) -> Result<(), NoMemory>
    requires { (blank.name ≡ L.name) × (blank.parts ≡ L.parts) × (0 < L.parts) }
{
    let mut steps = Steps::<L>::new(blank);
    let explanation = explained(alloc, f, a, b, &mut steps)?.expect(rt, "accesses");
    assert!(rt; is_same(&explanation, expected));
    Ok(())
}

/// Whether this is how the accesses of two statements come to one object, with a count for nobody.
pub fn explains(
    rt: &impl Abort,
    alloc: Global,
    f: &Facts,
    a: Statement,
    b: Statement,
    expected: &Expected<'_>,
) -> Result<(), NoMemory> {
    explains_in::<Brand>(rt, alloc, f, a, b, expected, Blank::new(1))
}
