// Graphs of small programs that are loaded, against what was worked out by hand.

use crate::folders::facts;
use crate::into_node::{edges_into, input_of, own_node};
use crate::samples::{
    BOXED, BOXED_GRAPHS, CALLING, CALLING_GRAPHS, COPYING, COPYING_GRAPHS, LOOPING, LOOPING_GRAPHS,
    THROWING, THROWING_GRAPHS,
};
use crate::written::graphs_of;
use dep_form::input::MethodInput;
use dep_form::node::{Edge, Label};
use std::test::Fail;

// An edge of the method between two statements.
fn between(input: &MethodInput, from: u16, to: u16, label: Label) -> Result<Edge, Fail> {
    Ok(Edge {
        from: own_node(input, from)?,
        to: own_node(input, to)?,
        label,
    })
}

// Into 11, which writes the field, come the object from 8 as a base and the value from 9, and nothing else.
#[test]
fn the_object_of_a_write_is_a_base(rt: HostRuntime) -> Result<(), Fail> {
    let facts = facts(rt.alloc(), BOXED)?;
    let main = input_of(&facts, b"Main", b"main", b"([Ljava/lang/String;)V")?;
    let expected = [
        between(main, 8, 11, Label::Base)?,
        between(main, 9, 11, Label::Thin)?,
    ];
    assert_eq!(rt;
        edges_into(rt.alloc(), main, 11)?.as_slice(),
        expected.as_slice()
    );
    Ok(())
}

#[test]
fn a_box_is_written_and_read(rt: HostRuntime) -> Result<(), Fail> {
    let facts = facts(rt.alloc(), BOXED)?;
    assert_eq!(rt; graphs_of(rt.alloc(), &facts)?.as_str(), BOXED_GRAPHS);
    Ok(())
}

#[test]
fn calls_write_and_read_a_field(rt: HostRuntime) -> Result<(), Fail> {
    let facts = facts(rt.alloc(), CALLING)?;
    assert_eq!(rt; graphs_of(rt.alloc(), &facts)?.as_str(), CALLING_GRAPHS);
    Ok(())
}

#[test]
fn exceptions_go_through_a_handler(rt: HostRuntime) -> Result<(), Fail> {
    let facts = facts(rt.alloc(), THROWING)?;
    assert_eq!(rt; graphs_of(rt.alloc(), &facts)?.as_str(), THROWING_GRAPHS);
    Ok(())
}

#[test]
fn an_array_is_copied_outside(rt: HostRuntime) -> Result<(), Fail> {
    let facts = facts(rt.alloc(), COPYING)?;
    assert_eq!(rt; graphs_of(rt.alloc(), &facts)?.as_str(), COPYING_GRAPHS);
    Ok(())
}

#[test]
fn a_loop_reads_what_it_wrote(rt: HostRuntime) -> Result<(), Fail> {
    let facts = facts(rt.alloc(), LOOPING)?;
    assert_eq!(rt; graphs_of(rt.alloc(), &facts)?.as_str(), LOOPING_GRAPHS);
    Ok(())
}
