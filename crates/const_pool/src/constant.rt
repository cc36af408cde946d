// One constant.
ghost use Rattle.std.specs.Prelude.{◌≡◌, length};
ghost use Rattle.byte_form.specs.States.{state};
ghost use Rattle.byte_form.specs.Reading.{Gives};
ghost use Rattle.class_form.specs.PoolReading.{is_tag, read_info, read_text, read_constant};

use byte_form::cursor::Cursor;
use byte_form::error::ItemError;
use class_form::pool::Constant;
use jvm_names::check_utf;
use std::alloc::Global;

// What stands behind a tag that isn't that of a text.
#[tactic(auto, unfolding(class_form::specs::PoolReading::read_info))]
fn info(tag: u8, cursor: &mut Cursor<'_>) -> Result<Constant, ItemError>
    ensures { Gives (λ c. c) result (state cursor.new) (read_info tag (state cursor.old)) }
{
    match tag {
        3 => {
            let n = cursor.u4()?;
            Ok(Constant::Integer(n))
        }
        4 => {
            let n = cursor.u4()?;
            Ok(Constant::Float(n))
        }
        5 => {
            let n = cursor.u8()?;
            Ok(Constant::Long(n))
        }
        6 => {
            let n = cursor.u8()?;
            Ok(Constant::Double(n))
        }
        7 => {
            let name = cursor.u2()?;
            Ok(Constant::Class(name))
        }
        8 => {
            let text = cursor.u2()?;
            Ok(Constant::Text(text))
        }
        9 => {
            let class = cursor.u2()?;
            let rest = cursor.u2()?;
            Ok(Constant::Field(class, rest))
        }
        10 => {
            let class = cursor.u2()?;
            let rest = cursor.u2()?;
            Ok(Constant::Method(class, rest))
        }
        11 => {
            let class = cursor.u2()?;
            let rest = cursor.u2()?;
            Ok(Constant::InterfaceMethod(class, rest))
        }
        12 => {
            let name = cursor.u2()?;
            let descriptor = cursor.u2()?;
            Ok(Constant::NameAndType(name, descriptor))
        }
        15 => {
            let kind = cursor.u1()?;
            let reference = cursor.u2()?;
            Ok(Constant::Handle(kind, reference))
        }
        16 => {
            let descriptor = cursor.u2()?;
            Ok(Constant::MethodType(descriptor))
        }
        _ => {
            let bootstrap = cursor.u2()?;
            let rest = cursor.u2()?;
            Ok(Constant::Dynamic(bootstrap, rest))
        }
    }
}

// A text whose tag stands at the offset.
#[tactic(auto, unfolding(class_form::specs::PoolReading::read_text))]
fn text(alloc: Global, at: u32, cursor: &mut Cursor<'_>) -> Result<Constant, ItemError>
    ensures { Gives (λ c. c) result (state cursor.new) (read_text at (state cursor.old)) }
{
    let len = cursor.u2()?;
    let content = cursor.name(alloc, len as usize)?;
    if !check_utf(content.bytes()) {
        return Err(ItemError::Broken { rule: 2, at });
    }
    Ok(Constant::Utf8(content))
}

// Whether a pool of this major version may have the tag.
fn is_tag(major: u16, tag: u8) -> bool
    ensures { result ≡ is_tag major tag }
{
    tag == 1 || (3 <= tag && tag <= 12) || ((tag == 15 || tag == 16 || tag == 18) && 51 <= major)
}

/// A constant that stands before so many more indices.
#[tactic(auto, unfolding(class_form::specs::PoolReading::read_constant))]
pub fn constant(
    alloc: Global,
    major: u16,
    left: u16,
    cursor: &mut Cursor<'_>,
) -> Result<Constant, ItemError>
    ensures { Gives (λ c. c) result (state cursor.new) (read_constant major left (state cursor.old)) }
{
    let at = cursor.at();
    let tag = cursor.u1()?;
    if !is_tag(major, tag) {
        return Err(ItemError::Broken { rule: 1, at });
    }
    if (tag == 5 || tag == 6) && left == 0 {
        return Err(ItemError::Broken { rule: 3, at });
    }
    if tag == 1 {
        return text(alloc, at, cursor);
    }
    info(tag, cursor)
}
