// The class file.
ghost use Rattle.std.specs.Prelude.{◌≡◌, ◌<◌, ◌^◌, length, [], IfOk, Ok, Err};
ghost use Rattle.byte_form.specs.States.{state};
ghost use Rattle.byte_form.specs.Places.{start};
ghost use Rattle.byte_form.specs.Reading.{Gives, list_at};
ghost use Rattle.class_form.specs.declared.class_file.ClassFile.{ClassFile};
ghost use Rattle.class_form.specs.ClassRules.{Spells};
ghost use Rattle.class_form.specs.FirstFaults.{ClassFault, IsFirstFault};
ghost use Rattle.class_form.specs.ClassReading.{read_counted, read_interface, read_class, read_class_file, read_file};
ghost use Rattle.class_reader.specs.Errors.{FileGives, FileAnswers, IfFileFault, without_end};

use crate::attributes::plain_attributes;
use crate::error::ReadError;
use crate::methods::{fields, methods};
use crate::numbers::numbers;
use byte_form::cursor::Cursor;
use byte_form::error::ItemError;
use class_form::class_file::ClassFile;
use class_form::pool::Pool;
use class_rules::rules::{is_plain_class, is_superclass};
use const_pool::pool_at;
use slicer_ids::list::List;
use std::alloc::Global;

#[tactic(auto, unfolding(class_form::specs::ClassReading::read_interface))]
fn interface(pool: &Pool, cursor: &mut Cursor<'_>) -> Result<u16, ItemError>
    ensures { Gives (λ x. x) result (state cursor.new) (read_interface pool.now (state cursor.old)) }
{
    let at = cursor.at();
    let i = cursor.u2()?;
    if !is_plain_class(pool, i) {
        return Err(ItemError::Broken { rule: 8, at });
    }
    Ok(i)
}

fn interface_list(
    alloc: Global,
    count: u16,
    pool: &Pool,
    cursor: &mut Cursor<'_>,
) -> Result<Vec<u16>, ItemError>
    ensures { Gives (λ v. v.items) result (state cursor.new) (list_at (λ _. read_interface pool.now) count [] (state cursor.old)) }
{
    let mut items = Vec::new(alloc);
    for _ in 0..count {
        let next = interface(pool, cursor)?;
        items.push(next)?;
    }
    Ok(items)
}

fn interfaces(alloc: Global, pool: &Pool, cursor: &mut Cursor<'_>) -> Result<List<u16>, ItemError>
    ensures { Gives (λ x. x) result (state cursor.new) (read_counted (λ _. read_interface pool.now) (state cursor.old)) }
{
    let count = cursor.u2()?;
    let items = interface_list(alloc, count, pool, cursor)?;
    Ok(List::from_vec(items))
}

// All behind the version.
#[tactic(auto, unfolding(class_form::specs::ClassReading::read_class))]
fn class(
    alloc: Global,
    minor: u16,
    major: u16,
    cursor: &mut Cursor<'_>,
) -> Result<ClassFile, ItemError>
    ensures { Gives (λ x. x) result (state cursor.new) (read_class minor major (state cursor.old)) }
{
    let (pool, kinds) = pool_at(alloc, major, cursor)?;
    let flags = cursor.u2()?;
    let this_at = cursor.at();
    let this_class = cursor.u2()?;
    if !is_plain_class(&pool, this_class) {
        return Err(ItemError::Broken {
            rule: 6,
            at: this_at,
        });
    }
    let super_at = cursor.at();
    let super_class = cursor.u2()?;
    if !is_superclass(&pool, this_class, super_class) {
        return Err(ItemError::Broken {
            rule: 7,
            at: super_at,
        });
    }
    let interfaces = interfaces(alloc, &pool, cursor)?;
    let numbers = numbers(alloc, &pool)?;
    let fields = fields(alloc, &pool, &kinds, &numbers, cursor)?;
    let methods = methods(alloc, &pool, &kinds, &numbers, flags, cursor)?;
    let attributes = plain_attributes(alloc, &pool, cursor)?;
    Ok(ClassFile {
        minor,
        major,
        pool,
        flags,
        this_class,
        super_class,
        interfaces,
        fields,
        methods,
        attributes,
    })
}

// A class file, behind which more may stand.
#[tactic(auto, unfolding(class_form::specs::ClassReading::read_class_file))]
fn class_file(alloc: Global, cursor: &mut Cursor<'_>) -> Result<ClassFile, ReadError>
    ensures { FileGives result (state cursor.new) (read_class_file (state cursor.old)) }
{
    let magic = cursor.u4()?;
    if magic != 0xcafebabe {
        return Err(ReadError::NotClass);
    }
    let minor = cursor.u2()?;
    let major = cursor.u2()?;
    if major < 45 || major > 51 {
        return Err(ReadError::Version(major));
    }
    Ok(class(alloc, minor, major, cursor)?)
}

// All of a file.
#[tactic(auto, unfolding(class_form::specs::ClassReading::read_file))]
fn file(alloc: Global, bytes: &[u8]) -> Result<ClassFile, ReadError>
    requires { length bytes.now < 2 ^ 32 }
    ensures { FileAnswers result (without_end (read_file (start bytes.now))) }
{
    let mut cursor = Cursor::new(bytes);
    let class = class_file(alloc, &mut cursor)?;
    if !cursor.is_at_end() {
        return Err(ReadError::Trailing(cursor.at()));
    }
    Ok(class)
}

/// Reads a class file of a major version from 45 to 51 (JVMS SE 7 4.1), all of its bytes. What isn't one is refused by the first violated item,
/// in the order of the file: the pool with its texts and counts first, then each constant's indices and texts, then all else. Offsets are of the
/// first byte of what a rule is about.
///
/// Rules 1 to 5 are those of the pool (`const_pool::read_pool`). The others: 6 this class, 7 its superclass, 8 an interface is no class, or an array;
/// 9 a name or descriptor of a member is none, or `<clinit>` isn't `()V`; 10 two fields or two methods have one name and descriptor;
/// 11 the name of an attribute is no text; 12 the content of a Code or LineNumberTable hasn't its length; 13 a method has two, or lacks, or may not have, a Code;
/// 14 code is empty or longer than 65535; 15 an entry of an exception table, 16 a pc of a line table is outside of the code; 17 parameters take more than 255
/// slots, or more than there are locals; 18 a method of an interface isn't abstract.
pub fn read_class(alloc: Global, bytes: &[u8]) -> Result<ClassFile, ReadError>
    requires { length bytes.now < 2 ^ 32 }
    // What is read is spelled so.
    ensures found { IfOk result (Spells bytes.now) }
    // What is spelled so is read, unless memory runs out.
    ensures only { (c : ClassFile) → Spells bytes.now c → FileAnswers result (Ok c) }
    // A fault is the first one.
    ensures fault { IfFileFault result (IsFirstFault bytes.now) }
    // The first fault is answered, unless memory runs out.
    ensures refused { (fault : ClassFault) → IsFirstFault bytes.now fault → FileAnswers result (Err fault) }
{
    file(alloc, bytes)
}
