// What is kept of a method: where its rows stand, and the edges of its calls, by call.
ghost use Rattle.std.specs.Prelude.{◌≡◌, ◌<◌, true, false, length, MatchOption};
ghost use Rattle.tabulate.specs.Frames.{count, method_of, first_exit, exit_count};
ghost use Rattle.tabulate.specs.Methods.{IsMethodOf, AreMethods, IsMet, IsMetAs};

use dep_form::facts::Facts;
use slicer_ids::ids::{CallId, ExitId, MethodId, NodeId};

/// An edge of a call, from an argument to a formal.
#[derive(Clone, Copy, Drop)]
pub struct Argument {
    pub call: CallId,
    pub from: NodeId,
    pub formal: NodeId,
}

/// An edge of a return, from an exit to a node of the caller.
#[derive(Clone, Copy, Drop)]
pub struct Back {
    pub call: CallId,
    pub exit: ExitId,
    pub to: NodeId,
}

/// A method that was met: its first node, how many nodes it has, how many words have a bit for each of its exits, the first
/// of these and how many they are; and the edges of calls that end in its formals, and those of returns that end in its
/// nodes, each list by call.
#[derive(Drop)]
pub struct Method {
    pub id: MethodId,
    pub first: NodeId,
    pub size: u32,
    pub width: u32,
    pub first_exit: u32,
    pub exit_count: u32,
    pub arguments: Vec<Argument>,
    pub returns: Vec<Back>,
}

/// The method of a node.
pub fn owner(f: &Facts, n: NodeId) -> MethodId
    requires { n.0 < count f.now }
    ensures is { result.0 ≡ method_of f.now n.0 }
    ensures within { result.0 < length f.now.inputs }
{
    f.method_of(n)
}

/// What is kept of a method; none where it wasn't met.
pub fn find_method<'a>(
    f: &Facts,
    methods: &'a Vec<Option<Method>>,
    m: MethodId,
) -> Option<&'a Method>
    requires method { m.0 < length f.now.inputs }
    requires methods { AreMethods f.now methods.now.items }
    ensures { MatchOption result (IsMet methods.now.items m.0 → ⊥) (λ x. IsMetAs methods.now.items m.0 x.now × IsMethodOf f.now x.now × (x.now.id.0 ≡ m.0)) }
{
    match &methods[m.0 as usize] {
        Some(method) => Some(method),
        None => None,
    }
}

/// What is kept of a method that was met.
pub fn met_method<'a>(f: &Facts, methods: &'a Vec<Option<Method>>, m: MethodId) -> &'a Method
    requires methods { AreMethods f.now methods.now.items }
    requires met { IsMet methods.now.items m.0 }
    ensures there { IsMetAs methods.now.items m.0 result.now }
    ensures method { IsMethodOf f.now result.now }
    ensures id { result.now.id.0 ≡ m.0 }
{
    match find_method(f, methods, m) {
        Some(method) => method,
        None => unreachable!(),
    }
}

/// Whether a method was met.
pub fn is_met(f: &Facts, methods: &Vec<Option<Method>>, m: MethodId) -> bool
    requires method { m.0 < length f.now.inputs }
    requires methods { AreMethods f.now methods.now.items }
    ensures yes { result ≡ true → IsMet methods.now.items m.0 }
    ensures none { result ≡ false → IsMet methods.now.items m.0 → ⊥ }
{
    match find_method(f, methods, m) {
        Some(_) => true,
        None => false,
    }
}
