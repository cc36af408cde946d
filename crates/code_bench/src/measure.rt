// The time that each phase takes.

ghost use Rattle.std.specs.Prelude.{◌<◌, length};
ghost use Rattle.class_form.specs.Shapes.{AreInstrsOf, AreArguments};
ghost use Rattle.class_form.specs.Reaching.{IsFlow};

use crate::totals::{Phase, Totals};
use bytecode::decode;
use class_form::body::{Body, Instr, Shape};
use class_form::class_file::{ClassFile, CodeBody, Content, Member};
use class_form::pool::Pool;
use code_shape::shape;
use method_body::{is_readable, read_body};
use reaching_defs::reaching;
use slicer_ids::ids::MethodId;
use std::io;
use std::time::Instant;

fn time_decode(rt: &HostRuntime, pool: &Pool, code: &[u8], totals: &mut Totals) -> io::Result<()>
    requires { length code.now < 65536 }
{
    let start = Instant::now(rt)?;
    let _instrs = decode(rt.alloc(), code, pool);
    totals.took(Phase::Decode, start.elapsed(rt)?);
    Ok(())
}

fn time_shape(
    rt: &HostRuntime,
    code: &CodeBody,
    instrs: &[Instr],
    arguments: &[u8],
    totals: &mut Totals,
) -> io::Result<()>
    requires code { length code.now.code < 65536 }
    requires instrs { AreInstrsOf (length code.now.code) instrs.now }
    requires arguments { AreArguments code.now arguments.now }
{
    let start = Instant::now(rt)?;
    let _shape = shape(rt.alloc(), code, instrs, arguments);
    totals.took(Phase::Shape, start.elapsed(rt)?);
    Ok(())
}

fn time_reaching(rt: &HostRuntime, shape: &Shape, totals: &mut Totals) -> io::Result<()>
    requires { IsFlow shape.now }
{
    let start = Instant::now(rt)?;
    let _reach = reaching(rt.alloc(), shape);
    totals.took(Phase::Reaching, start.elapsed(rt)?);
    Ok(())
}

// Times the phases of a body, once more each.
fn time_body(
    rt: &HostRuntime,
    pool: &Pool,
    code: &CodeBody,
    body: &Body,
    totals: &mut Totals,
) -> io::Result<()>
    requires code { length code.now.code < 65536 }
    requires instrs { AreInstrsOf (length code.now.code) body.now.instrs }
    requires arguments { AreArguments code.now body.now.shape.arguments }
    requires flow { IsFlow body.now.shape }
{
    totals.read_method(body.instrs.items().len());
    time_decode(rt, pool, code.code.bytes(), totals)?;
    time_shape(
        rt,
        code,
        body.instrs.items(),
        body.shape.arguments.items(),
        totals,
    )?;
    time_reaching(rt, &body.shape, totals)?;
    Ok(())
}

// Reads the code of a method and times it.
fn measure_code(
    rt: &HostRuntime,
    pool: &Pool,
    method: &Member,
    code: &CodeBody,
    totals: &mut Totals,
) -> io::Result<()> {
    if !is_readable(pool, method, code) {
        totals.refused_method();
        return Ok(());
    }
    match read_body(rt.alloc(), MethodId(0), pool, method, code) {
        Ok(body) => time_body(rt, pool, code, &body, totals),
        Err(_) => {
            totals.refused_method();
            Ok(())
        }
    }
}

fn measure_method(
    rt: &HostRuntime,
    pool: &Pool,
    method: &Member,
    totals: &mut Totals,
) -> io::Result<()> {
    for attribute in method.attributes.items() {
        if let Content::Code(code) = &attribute.content {
            measure_code(rt, pool, method, code, totals)?;
        }
    }
    Ok(())
}

/// Times the methods of a class.
pub fn measure_class(rt: &HostRuntime, class: &ClassFile, totals: &mut Totals) -> io::Result<()> {
    totals.read_file();
    for method in class.methods.items() {
        measure_method(rt, &class.pool, method, totals)?;
    }
    Ok(())
}
