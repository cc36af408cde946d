// Small programs: their nodes and edges written by hand from their code.
ghost use Rattle.std.specs.Prelude.{◌≡◌, IfOk, length};

use crate::parts::{facts_of, input, text};
use dep_form::facts::Facts;
use dep_form::node::{Edge, Label, Node};
use slicer_ids::ids::{CallId, NoMemory, NodeId};
use std::alloc::Global;

macro_rules! flow {
    ($a:expr, $b:expr) => {
        Edge {
            from: NodeId($a),
            to: NodeId($b),
            label: Label::Thin,
        }
    };
}

macro_rules! enters {
    ($c:expr, $a:expr, $b:expr) => {
        Edge {
            from: NodeId($a),
            to: NodeId($b),
            label: Label::Call(CallId($c)),
        }
    };
}

macro_rules! returns {
    ($c:expr, $a:expr, $b:expr) => {
        Edge {
            from: NodeId($a),
            to: NodeId($b),
            label: Label::Return(CallId($c)),
        }
    };
}

/// rec (I)I: iload_0, ifne 6, iconst_5, ireturn, 6: iload_0, iconst_1, isub, invokestatic rec, ireturn; main calls rec(3).
/// Nodes of rec: 0 the formal, 1 to 7 its statements up to isub, 8 the call, 9 its argument, 10 its result, 11 the last ireturn,
/// 12 the return node. Nodes of main: 13 iconst_3, 14 the call, 15 its argument, 16 its result.
pub fn recursion(alloc: Global) -> Result<Facts, NoMemory>
    ensures { IfOk result (λ f. length f.exits ≡ 1) }
{
    let rec = input(
        alloc,
        0,
        0,
        &[
            Node::Formal(0),
            Node::Own(0),
            Node::Own(1),
            Node::Own(4),
            Node::Own(5),
            Node::Own(6),
            Node::Own(7),
            Node::Own(8),
            Node::Own(9),
            Node::Argument(9, 0),
            Node::Result(9),
            Node::Own(12),
            Node::Return,
        ],
        &[
            flow!(0, 1),
            flow!(1, 2),
            flow!(3, 4),
            flow!(4, 12),
            flow!(0, 5),
            flow!(5, 7),
            flow!(6, 7),
            flow!(7, 9),
            flow!(10, 11),
            flow!(11, 12),
            enters!(0, 9, 0),
            returns!(0, 12, 10),
            enters!(1, 15, 0),
        ],
    )?;
    let main = input(
        alloc,
        1,
        13,
        &[
            Node::Own(0),
            Node::Own(1),
            Node::Argument(1, 0),
            Node::Result(1),
        ],
        &[flow!(13, 15), returns!(1, 12, 16)],
    )?;
    let inputs = vec![in alloc; Some(rec), Some(main)]?;
    let exits = vec![in alloc; NodeId(12)]?;
    let texts = vec![in alloc; text(alloc, b"rec")?]?;
    facts_of(alloc, inputs, exits, texts)
}

/// id (I)I: iload_0, ireturn. main: iconst_1, id, istore_1, iconst_2, id, istore_2.
/// Nodes of id: 0 the formal, 1 iload_0, 2 ireturn, 3 the return node. Nodes of main: 4 iconst_1, 5 the call, 6 its argument,
/// 7 its result, 8 istore_1, 9 iconst_2, 10 the call, 11 its argument, 12 its result, 13 istore_2.
pub fn two_calls(alloc: Global) -> Result<Facts, NoMemory>
    ensures { IfOk result (λ f. length f.exits ≡ 1) }
{
    let id = input(
        alloc,
        0,
        0,
        &[Node::Formal(0), Node::Own(0), Node::Own(1), Node::Return],
        &[
            flow!(0, 1),
            flow!(1, 2),
            flow!(2, 3),
            enters!(0, 6, 0),
            enters!(1, 11, 0),
        ],
    )?;
    let main = input(
        alloc,
        1,
        4,
        &[
            Node::Own(0),
            Node::Own(1),
            Node::Argument(1, 0),
            Node::Result(1),
            Node::Own(4),
            Node::Own(5),
            Node::Own(6),
            Node::Argument(6, 0),
            Node::Result(6),
            Node::Own(9),
        ],
        &[
            flow!(4, 6),
            returns!(0, 3, 7),
            flow!(7, 8),
            flow!(9, 11),
            returns!(1, 3, 12),
            flow!(12, 13),
        ],
    )?;
    let inputs = vec![in alloc; Some(id), Some(main)]?;
    let exits = vec![in alloc; NodeId(3)]?;
    let texts = vec![in alloc; text(alloc, b"id")?]?;
    facts_of(alloc, inputs, exits, texts)
}

/// Two methods that call each other: even (I)I answers what odd answers for its argument, and odd its argument, or what even
/// answers for it. Nodes of even: 0 the formal, 1 the argument, 2 the result, 3 the return node. Nodes of odd: 4 to 7, the same.
/// Nodes of main: 8 iconst_1, 9 the argument, 10 the result.
pub fn each_other(alloc: Global) -> Result<Facts, NoMemory>
    ensures { IfOk result (λ f. length f.exits ≡ 2) }
{
    let even = input(
        alloc,
        0,
        0,
        &[
            Node::Formal(0),
            Node::Argument(1, 0),
            Node::Result(1),
            Node::Return,
        ],
        &[
            flow!(0, 1),
            flow!(2, 3),
            returns!(0, 7, 2),
            enters!(1, 5, 0),
            enters!(2, 9, 0),
        ],
    )?;
    let odd = input(
        alloc,
        1,
        4,
        &[
            Node::Formal(0),
            Node::Argument(1, 0),
            Node::Result(1),
            Node::Return,
        ],
        &[
            flow!(4, 5),
            flow!(4, 7),
            flow!(6, 7),
            returns!(1, 3, 6),
            enters!(0, 1, 4),
        ],
    )?;
    let main = input(
        alloc,
        2,
        8,
        &[Node::Own(0), Node::Argument(1, 0), Node::Result(1)],
        &[flow!(8, 9), returns!(2, 3, 10)],
    )?;
    let inputs = vec![in alloc; Some(even), Some(odd), Some(main)]?;
    let exits = vec![in alloc; NodeId(3), NodeId(7)]?;
    let texts = vec![in alloc; text(alloc, b"even")?, text(alloc, b"odd")?]?;
    facts_of(alloc, inputs, exits, texts)
}
