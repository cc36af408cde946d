// Which values are class files.
ghost use Rattle.std.specs.Prelude.{◌≡◌, ◌↔◌, IsTrue, length, map};
ghost use Rattle.std.specs.List.{list_all};
ghost use Rattle.class_form.specs.ClassReading.{is_version};
ghost use Rattle.class_writer.specs.Tests.{is_class_file, is_class, is_interface, are_interfaces};
ghost use Rattle.class_writer.specs.Spelled.{IsSpelled};
ghost use Rattle.const_pool.specs.Texts.{AreKindsOf, kinds_of};

use crate::check_attributes::are_plain_attributes;
use crate::check_members::{are_fields, are_methods};
use crate::check_pool::is_pool;
use crate::numbers;
use class_form::class_file::ClassFile;
use class_form::pool::{Constant, Pool};
use class_rules::rules::{is_plain_class, is_superclass};
use const_pool::texts::{TextKinds, kinds_of};

// The constants that a pool has at most.
const MOST_CONSTANTS: usize = 65534;

fn set_kinds(constants: &[Constant], kinds: &mut [TextKinds])
    requires { length kinds.old ≡ length constants.now }
    ensures { kinds.new ≡ map kinds_of constants.now }
{
    for i in 0..constants.len() {
        kinds[i] = kinds_of(&constants[i]);
    }
}

fn is_interface(pool: &Pool, i: u16) -> bool
    ensures { result ≡ is_interface pool.now i }
{
    numbers::of_short(i);
    is_plain_class(pool, i)
}

fn each_is_interface(pool: &Pool, interfaces: &[u16]) -> bool
    ensures { result ≡ list_all (is_interface pool.now) interfaces.now }
{
    interfaces.iter().all(|i| is_interface(pool, *i))
}

fn are_interfaces(pool: &Pool, interfaces: &[u16]) -> bool
    ensures { result ≡ are_interfaces pool.now interfaces.now }
{
    interfaces.len() <= 65535 && each_is_interface(pool, interfaces)
}

fn is_version(major: u16) -> bool
    ensures { result ≡ is_version major }
{
    45 <= major && major <= 51
}

// Whether this class and its superclass are classes.
fn is_class(class: &ClassFile) -> bool
    ensures { result ≡ is_class class.now }
{
    is_plain_class(&class.pool, class.this_class)
        && is_superclass(&class.pool, class.this_class, class.super_class)
}

// The rules, by the kinds of the pool's constants.
fn is_class_file(class: &ClassFile, kinds: &[TextKinds]) -> bool
    requires { AreKindsOf class.now.pool kinds.now }
    ensures { result ≡ is_class_file class.now }
{
    numbers::of_class(class);
    let pool = &class.pool;
    is_version(class.major)
        && pool.major == class.major
        && is_pool(pool, kinds)
        && is_class(class)
        && are_interfaces(pool, class.interfaces.items())
        && are_fields(pool, kinds, class.fields.items())
        && are_methods(pool, kinds, class.flags, class.methods.items())
        && are_plain_attributes(pool, class.attributes.items())
}

/// Whether some bytes are those of the class file (JVMS SE 7 4.1): its counts and lengths can be written, and it keeps the rules.
pub fn well_formed(class: &ClassFile) -> bool
    ensures { IsTrue result ↔ IsSpelled class.now }
{
    let constants = class.pool.constants.items();
    if constants.len() > MOST_CONSTANTS {
        return false;
    }
    let mut table = [TextKinds::NONE; MOST_CONSTANTS];
    let (kinds, _) = table.split_at_mut(constants.len());
    set_kinds(constants, kinds);
    is_class_file(class, kinds)
}
