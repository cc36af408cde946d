// That numbers are of their types, where a contract asks for it. Nothing is done when these functions run.
#![tactic(auto, unfolding(crate::specs::Numbers::is_short, crate::specs::Numbers::has_numbers, crate::specs::Numbers::line_has_numbers, crate::specs::Numbers::handler_has_numbers, crate::specs::Numbers::body_has_numbers, crate::specs::Numbers::member_has_numbers, crate::specs::Numbers::class_has_numbers))]

ghost use Rattle.std.specs.Prelude.{◌≡◌, IsTrue};
ghost use Rattle.class_writer.specs.Numbers.{is_short, has_numbers, line_has_numbers, handler_has_numbers, body_has_numbers, member_has_numbers, class_has_numbers};

use class_form::class_file::{ClassFile, CodeBody, Handler, Member};
use class_form::pool::Constant;

/// Of a number.
pub fn of_short(_n: u16)
    ensures { IsTrue (is_short _n) }
{}

/// Of a line.
pub fn of_line(line: &(u16, u16))
    ensures { IsTrue (line_has_numbers line.now) }
{
    let (_pc, _number) = *line;
}

/// Of an entry of the exception table.
pub fn of_handler(handler: &Handler)
    ensures { IsTrue (handler_has_numbers handler.now) }
{
    let _start = handler.start;
    let _end = handler.end;
    let _handler = handler.handler;
    let _catch_type = handler.catch_type;
}

/// Of code.
pub fn of_body(body: &CodeBody)
    ensures { IsTrue (body_has_numbers body.now) }
{
    let _max_stack = body.max_stack;
    let _max_locals = body.max_locals;
}

/// Of a field or a method.
pub fn of_member(member: &Member)
    ensures { IsTrue (member_has_numbers member.now) }
{
    let _flags = member.flags;
    let _name = member.name;
    let _descriptor = member.descriptor;
}

/// Of a class file.
pub fn of_class(class: &ClassFile)
    ensures { IsTrue (class_has_numbers class.now) }
{
    let _minor = class.minor;
    let _flags = class.flags;
    let _this_class = class.this_class;
    let _super_class = class.super_class;
}

/// Of a constant.
pub fn of_constant(constant: &Constant)
    ensures { IsTrue (has_numbers constant.now) }
{
    match constant {
        Constant::Integer(n) | Constant::Float(n) => {
            let _n = *n;
        }
        Constant::Long(n) | Constant::Double(n) => {
            let _n = *n;
        }
        Constant::Class(n) | Constant::Text(n) | Constant::MethodType(n) => {
            let _n = *n;
        }
        Constant::Field(n, m)
        | Constant::Method(n, m)
        | Constant::InterfaceMethod(n, m)
        | Constant::NameAndType(n, m)
        | Constant::Dynamic(n, m) => {
            let (_n, _m) = (*n, *m);
        }
        Constant::Handle(kind, n) => {
            let (_kind, _n) = (*kind, *n);
        }
        Constant::Utf8(_) | Constant::Second => {}
    }
}
