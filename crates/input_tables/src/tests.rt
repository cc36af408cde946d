// Steps and uses come in order and once each, and what operands, returns and throws lead to, worked out by hand.

use crate::definitions::{raised_node, taker_node};
use crate::exits::{leaving_node, return_node};
use crate::steps::{add_step, listed as listed_steps};
use crate::uses::{Use, listed as listed_uses};
use class_form::class_file::Handler;
use dep_form::node::Node;
use slicer_ids::ids::{LocId, NodeId};
use std::test::Fail;

// Steps from 2 to 0, from 0 to 1, from 1 to nowhere, and from 2 to 0 again.
#[test]
fn steps_come_in_order(rt: HostRuntime) -> Result<(), Fail> {
    let mut steps = Vec::new(rt.alloc());
    add_step(&mut steps, 2, Some(0))?;
    add_step(&mut steps, 0, Some(1))?;
    add_step(&mut steps, 1, None)?;
    add_step(&mut steps, 2, Some(0))?;
    let pairs = listed_steps(rt.alloc(), steps)?;
    assert!(rt; pairs.len() == 2);
    assert!(rt; pairs[0] == (0, 1));
    assert!(rt; pairs[1] == (2, 0));
    Ok(())
}

// Uses of location 9 and 4 by node 7 at point 1, and of location 9 by node 8 at point 0.
#[test]
fn uses_come_in_order(rt: HostRuntime) -> Result<(), Fail> {
    let mut uses = Vec::new(rt.alloc());
    uses.push(Use {
        point: 1,
        node: NodeId(7),
        location: LocId(9),
    })?;
    uses.push(Use {
        point: 1,
        node: NodeId(7),
        location: LocId(4),
    })?;
    uses.push(Use {
        point: 0,
        node: NodeId(8),
        location: LocId(9),
    })?;
    let triples = listed_uses(rt.alloc(), uses)?;
    assert!(rt; triples.len() == 3);
    assert!(rt; triples[0] == (0, NodeId(8), LocId(9)));
    assert!(rt; triples[1] == (1, NodeId(7), LocId(4)));
    assert!(rt; triples[2] == (1, NodeId(7), LocId(9)));
    Ok(())
}

// putfield at 4 takes its operands itself; invokevirtual at 8 takes its second by an argument, and athrow at 9 throws itself.
#[test]
fn calls_take_by_arguments(rt: HostRuntime) -> Result<(), Fail> {
    assert!(rt; taker_node(181, 4, 1) == Node::Own(4));
    assert!(rt; taker_node(182, 8, 1) == Node::Argument(8, 1));
    assert!(rt; raised_node(182, 8) == Some(Node::Exception(8)));
    assert!(rt; raised_node(191, 9) == Some(Node::Own(9)));
    assert!(rt; raised_node(181, 4) == None);
    Ok(())
}

// A handler of class 7 covers 0 to 9, one that catches all covers 4 to 7.
#[test]
fn what_is_caught_stays(rt: HostRuntime) -> Result<(), Fail> {
    let handlers = [
        Handler {
            start: 0,
            end: 10,
            handler: 20,
            catch_type: 7,
        },
        Handler {
            start: 4,
            end: 8,
            handler: 30,
            catch_type: 0,
        },
    ];
    assert!(rt; leaving_node(&handlers, 191, 3) == Some(Node::Own(3)));
    assert!(rt; leaving_node(&handlers, 191, 4) == None);
    assert!(rt; leaving_node(&handlers, 182, 7) == None);
    assert!(rt; leaving_node(&handlers, 182, 8) == Some(Node::Exception(8)));
    assert!(rt; return_node(177, 9) == None);
    Ok(())
}
