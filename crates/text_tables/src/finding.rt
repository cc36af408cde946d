// What stands where: the class file and the code of a method, the body of a method, the instruction at a program counter.
ghost use Rattle.std.specs.Prelude.{◌≡◌, ℕ, Some, All, Contains, IfNone, IfSome, option_map, slice_get};
ghost use Rattle.class_form.specs.Classes.{HasCode};
ghost use Rattle.class_form.specs.ClassRules.{IsClassFile};
ghost use Rattle.class_form.specs.declared.body.Body.{Body};
ghost use Rattle.class_form.specs.declared.body.Instr.{Instr};
ghost use Rattle.class_form.specs.declared.class_file.ClassFile.{ClassFile};
ghost use Rattle.class_form.specs.declared.class_file.CodeBody.{CodeBody};
ghost use Rattle.hierarchy.specs.Places.{declared_at};
ghost use Rattle.program_form.specs.Programs.{Program, ClassOf, CodeOf};
ghost use Rattle.program_code.specs.Codes.{IsProgramOfCode};
ghost use Rattle.text_tables.specs.Found.{AreInstrsInOrder, AreBodiesInOrder, IsCodeAt};

use class_form::body::{Body, Instr};
use class_form::class_file::{ClassFile, CodeBody, Content, Member};
use hierarchy::tree::Hierarchy;
use method_facts::entries::is_same;
use slicer_ids::ids::{ClassId, MethodId};

fn read_place(places: &[(ClassId, u16)], m: MethodId) -> Option<(ClassId, u16)>
    ensures { result ≡ slice_get places.now m.0 }
{
    match places.get(m.0 as usize) {
        Some(place) => Some(*place),
        None => None,
    }
}

/// The class that declares a method, and the method's place in it; none past the last method.
pub fn place_of(h: &Hierarchy, m: MethodId) -> Option<(ClassId, u16)>
    ensures { (p : Program) → p.classes ≡ h.now → IsProgramOfCode p → option_map declared_at result ≡ slice_get p.methods m.0 }
{
    read_place(h.method_places(), m)
}

/// The class file of this number.
pub fn class_at(classes: &[ClassFile], class: ClassId) -> Option<&ClassFile>
    ensures { option_map (λ k. k.now) result ≡ slice_get classes.now class.0 }
{
    classes.get(class.0 as usize)
}

/// The method at this place of its class.
pub fn member_at(class: &ClassFile, place: u16) -> Option<&Member>
    ensures { option_map (λ x. x.now) result ≡ slice_get class.now.methods place }
{
    class.methods.items().get(place as usize)
}

/// The class file that declares a method.
pub fn file_of(h: &Hierarchy, m: MethodId) -> Option<&ClassFile>
    ensures { (p : Program) (c : ℕ) (k : ClassFile) → p.classes ≡ h.now → IsProgramOfCode p → ClassOf p m c k → option_map (λ x. x.now) result ≡ Some k }
{
    match place_of(h, m) {
        Some(place) => class_at(h.classes(), place.0),
        None => None,
    }
}

// The first code among the attributes of a method.
fn first_code(method: &Member) -> Option<&CodeBody>
    ensures found { IfSome result (λ code. HasCode method.now code.now) }
    ensures missed { IfNone result ((code : CodeBody) → HasCode method.now code → ⊥) }
{
    for attribute in method.attributes.items() {
        if let Content::Code(code) = &attribute.content {
            return Some(code);
        }
    }
    None
}

fn code_in(class: &ClassFile, place: u16) -> Option<&CodeBody>
    requires { IsClassFile class.now }
    ensures { (code : CodeBody) → IsCodeAt class.now place code → option_map (λ x. x.now) result ≡ Some code }
{
    match member_at(class, place) {
        Some(method) => first_code(method),
        None => None,
    }
}

fn code_at(classes: &[ClassFile], class: ClassId, place: u16) -> Option<&CodeBody>
    requires { All IsClassFile classes.now }
    ensures { (k : ClassFile) (code : CodeBody) → slice_get classes.now class.0 ≡ Some k → IsCodeAt k place code → option_map (λ x. x.now) result ≡ Some code }
{
    match class_at(classes, class) {
        Some(file) => code_in(file, place),
        None => None,
    }
}

/// The code of a method, where it has one.
pub fn code_of(h: &Hierarchy, m: MethodId) -> Option<&CodeBody>
    requires { All IsClassFile h.now }
    ensures { (p : Program) (code : CodeBody) → p.classes ≡ h.now → IsProgramOfCode p → CodeOf p m code → option_map (λ x. x.now) result ≡ Some code }
{
    match place_of(h, m) {
        Some(place) => code_at(h.classes(), place.0, place.1),
        None => None,
    }
}

fn body_at(bodies: &[Body], k: usize) -> Option<&Body>
    ensures { option_map (λ x. x.now) result ≡ slice_get bodies.now k }
{
    bodies.get(k)
}

fn body_of_method(body: &Body, m: MethodId) -> Option<&Body>
    ensures found { IfSome result (λ x. (x.now ≡ body.now) × (body.now.method ≡ m)) }
    ensures whole { body.now.method ≡ m → option_map (λ x. x.now) result ≡ Some body.now }
{
    if is_same(body.method, m) {
        Some(body)
    } else {
        None
    }
}

/// The body of a method, among bodies in order of their methods. Found by halving.
pub fn body_of(bodies: &[Body], m: MethodId) -> Option<&Body>
    ensures found { IfSome result (λ b. Contains bodies.now b.now × (b.now.method ≡ m)) }
    ensures whole { (b : Body) → AreBodiesInOrder bodies.now → Contains bodies.now b → b.method ≡ m → option_map (λ x. x.now) result ≡ Some b }
{
    let k = bodies.partition_point(|body| body.method.0 < m.0);
    match body_at(bodies, k) {
        Some(body) => body_of_method(body, m),
        None => None,
    }
}

fn item_at(instrs: &[Instr], k: usize) -> Option<&Instr>
    ensures { option_map (λ x. x.now) result ≡ slice_get instrs.now k }
{
    instrs.get(k)
}

fn instr_of_pc(instr: &Instr, pc: u16) -> Option<&Instr>
    ensures { instr.now.pc ≡ pc → option_map (λ x. x.now) result ≡ Some instr.now }
{
    if instr.pc == pc { Some(instr) } else { None }
}

/// The instruction at a program counter, among instructions in order. Found by halving.
pub fn instr_at(instrs: &[Instr], pc: u16) -> Option<&Instr>
    ensures { (i : Instr) → AreInstrsInOrder instrs.now → Contains instrs.now i → i.pc ≡ pc → option_map (λ x. x.now) result ≡ Some i }
{
    let k = instrs.partition_point(|instr| instr.pc < pc);
    match item_at(instrs, k) {
        Some(instr) => instr_of_pc(instr, pc),
        None => None,
    }
}
