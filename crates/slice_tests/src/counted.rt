// How many nodes facts have.
ghost use Rattle.std.specs.Prelude.{◌≡◌};
ghost use Rattle.dep_form.specs.Firsts.{node_count, nodes_in};

use dep_form::facts::Facts;
use dep_form::input::MethodInput;

fn nodes_in(input: &Option<MethodInput>) -> usize
    ensures { result ≡ nodes_in input.now }
{
    match input {
        Some(input) => input.nodes.items().len(),
        None => 0,
    }
}

/// How many nodes the facts have.
pub fn node_count(f: &Facts) -> usize
    ensures { result ≡ node_count f.now.inputs }
{
    let mut count = 0;
    let inputs = f.inputs.items();
    for input in inputs {
        count += nodes_in(input);
    }
    count
}
