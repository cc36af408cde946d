// What the rules of a statement read.

use class_form::body::{Body, Instr, Point};
use class_form::class_file::{ClassFile, Member};
use dep_form::rules::SiteInfo;
use hierarchy::Hierarchy;
use signature_tables::texts::Texts;
use slicer_ids::ids::{ClassId, MethodId};
use variable_tables::tables::VariableTables;

/// The tables of a program.
#[derive(Clone, Copy)]
pub struct Tables<'a> {
    pub h: &'a Hierarchy,
    pub variables: &'a VariableTables,
    pub sites: &'a [SiteInfo],
    /// The names and descriptors of virtual calls, in order.
    pub signatures: &'a [Texts<'a>],
    /// Those of the static fields that statements name and the folder doesn't have, in order.
    pub foreign: &'a [Texts<'a>],
    /// The class initializers, in order of their classes.
    pub initializers: &'a [(ClassId, MethodId)],
    /// How many fields there are, with the elements, the length and the state of objects.
    pub fields: u32,
}

/// A reachable instruction, its method, and the class file that declares that.
#[derive(Clone, Copy)]
pub struct Reachable<'a> {
    pub body: &'a Body,
    pub point: &'a Point,
    pub instr: &'a Instr,
    pub file: &'a ClassFile,
    pub member: &'a Member,
}
