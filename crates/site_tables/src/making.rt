// What an instruction makes.
ghost use Rattle.std.specs.Prelude.{◌≡◌, ℕ, None, option_map, option_and_then};
ghost use Rattle.class_form.specs.Pools.{constant_at};
ghost use Rattle.class_form.specs.declared.class_file.ClassFile.{ClassFile};
ghost use Rattle.class_form.specs.declared.body.Body.{Body};
ghost use Rattle.slicer_ids.specs.declared.ids.Statement.{Statement};
ghost use Rattle.program_form.specs.Programs.{Program, ClassOf};
ghost use Rattle.program_form.specs.Statements.{IsAt};
ghost use Rattle.program_form.specs.Sites.{class_of_constant};
ghost use Rattle.constraint_form.specs.Asked.{IsReadProgram};
ghost use Rattle.site_tables.specs.Making.{IsFreshOf, IsLoaded, IsNewAt, IsArrayAt, FieldIn, ResultIn, IsNothing, class_in, AreMade};

use crate::descriptors::{of_array, of_field, of_new, of_result};
use crate::fresh::Fresh;
use crate::kind::{Kind, kind_of};
use class_form::body::Instr;
use class_form::pool::{Constant, Pool};

// The class of the object that a constant makes when it is loaded.
fn class_of(constant: &Constant) -> Option<&'static [u8]>
    ensures { option_map (λ c. c.now) result ≡ class_of_constant constant.now }
{
    match constant {
        Constant::Text(_) => Some(b"java/lang/String"),
        Constant::Class(_) => Some(b"java/lang/Class"),
        Constant::Handle(_, _) => Some(b"java/lang/invoke/MethodHandle"),
        Constant::MethodType(_) => Some(b"java/lang/invoke/MethodType"),
        _ => None,
    }
}

// .. of the constant at an index.
fn class_at(pool: &Pool, index: u16) -> Option<&'static [u8]>
    ensures { option_map (λ c. c.now) result ≡ option_and_then class_of_constant (constant_at pool.now index) }
{
    match pool.constant(index) {
        Some(constant) => class_of(constant),
        None => None,
    }
}

// What is made where the constant is loaded.
fn loaded(pool: &Pool, index: u16) -> Fresh<'_>
    ensures { IsLoaded pool.now index result }
{
    Fresh {
        dims: 0,
        class: class_at(pool, index),
    }
}

// What is made by `new` of the class.
fn new_object(pool: &Pool, index: u16) -> Fresh<'_>
    ensures { IsNewAt pool.now index result }
{
    match pool.class(index) {
        Some(text) => of_new(text),
        None => Fresh::nothing(),
    }
}

// The arrays of an array type.
fn arrays(pool: &Pool, index: u16, dims: u8) -> Fresh<'_>
    ensures { IsArrayAt pool.now index dims result }
{
    match pool.class(index) {
        Some(text) => of_array(text, dims),
        None => Fresh::nothing(),
    }
}

// What the field may hold that an instruction names.
fn field(pool: &Pool, index: u16) -> Fresh<'_>
    ensures { IsFreshOf (FieldIn pool.now index) result }
{
    match pool.descriptor(index) {
        Some(descriptor) => of_field(descriptor),
        None => Fresh::nothing(),
    }
}

// What the call may answer that an instruction names.
fn answer(pool: &Pool, index: u16) -> Fresh<'_>
    ensures { IsFreshOf (ResultIn pool.now index) result }
{
    match pool.descriptor(index) {
        Some(descriptor) => of_result(descriptor),
        None => Fresh::nothing(),
    }
}

// One array, whatever the pool says of its type.
fn one_array(_pool: &Pool) -> Fresh<'_>
    ensures dims { result.dims ≡ 1 }
    ensures class { class_in result ≡ None }
{
    Fresh::arrays(1)
}

// Nothing, whatever the pool says.
fn nothing(_pool: &Pool) -> Fresh<'_>
    ensures { IsNothing result }
{
    Fresh::nothing()
}

/// What an instruction makes of a class file with the pool. Takes no memory.
pub fn fresh<'a>(pool: &'a Pool, instr: &Instr) -> Fresh<'a>
    ensures { (p : Program) (t : Statement) (b : Body) (c : ℕ) (k : ClassFile) → IsReadProgram p → IsAt p t b instr.now → ClassOf p t.method c k → k.pool ≡ pool.now → AreMade p t result }
{
    match kind_of(instr.op) {
        Kind::Constant => loaded(pool, instr.index),
        Kind::Field => field(pool, instr.index),
        Kind::Call => answer(pool, instr.index),
        Kind::New => new_object(pool, instr.index),
        Kind::Array => one_array(pool),
        Kind::Dimensions => arrays(pool, instr.index, instr.dims),
        Kind::Other => nothing(pool),
    }
}
