// Methods by number, and bodies by method.
ghost use Rattle.std.specs.Prelude.{◌≡◌, Contains, IfSome, IfNone, AllPairs};
ghost use Rattle.program_form.specs.Programs.{Program};
ghost use Rattle.signature_tables.specs.Programs.{IsOfClasses};
ghost use Rattle.signature_tables.specs.Statements.{HasMethod};
ghost use Rattle.variable_tables.specs.Members.{IsMethodAt, MethodRises, IsBodyMethod};

use class_form::body::Body;
use class_form::class_file::{ClassFile, Member};
use hierarchy::Hierarchy;
use slicer_ids::ids::MethodId;

/// A method, and the class file that declares it.
pub(crate) fn member_of(h: &Hierarchy, method: MethodId) -> (&ClassFile, &Member)
    requires { HasMethod h.now method }
    ensures { (p : Program) → IsOfClasses h.now p → IsMethodAt p method result.0.now result.1.now }
{
    let (class, index) = h.method_places()[method.0 as usize];
    let file = &h.classes()[class.0 as usize];
    (file, &file.methods.items()[index as usize])
}

/// The body of a method, of bodies in order of their methods; none where it has none. Takes a logarithmic number of steps.
pub(crate) fn body_of(bodies: &[Body], method: MethodId) -> Option<&Body>
    requires { AllPairs MethodRises bodies.now }
    ensures found { IfSome result (λ b. Contains bodies.now b.now × (b.now.method ≡ method)) }
    ensures missed { IfNone result (IsBodyMethod bodies.now method → ⊥) }
{
    match bodies.binary_search_by(|body| body.method.cmp(&method)) {
        Ok(k) => Some(&bodies[k]),
        Err(_) => None,
    }
}
