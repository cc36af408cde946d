// What accesses of a method are read from.

use input_tables::Ground;
use value_tables::Method;

/// A method that may run with its variables, and its points, handlers and nodes.
#[derive(Clone, Copy)]
pub struct Scene<'a> {
    pub method: Method<'a>,
    pub ground: Ground<'a>,
}
