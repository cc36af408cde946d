// What a seat knows, the rule of the words, and what each step tells. No value of these types is made.
use atomic_table::{Join, Play, Split, TableRule};
use dep_form::facts::Facts;
use std::collections::LinkedList;

/// What a seat knows.
pub struct View {
    /// The facts that the rows are of; none once the seat was joined to another.
    pub about: Option<Facts>,
    /// Data words, each with bits that were found or set there, oldest first.
    pub bits: LinkedList<(u64, u64)>,
    /// Gates, each with what a look found or a shutting set there, oldest first. A gate that isn't 0 is shut.
    pub gates: LinkedList<(u64, u64)>,
}

/// Each data word is within the summary, a row that is shut has all of it, and what each seat knows is so.
pub struct SharedRows;

impl TableRule<(), View, Facts> for SharedRows {
    ghost use Rattle.summary_memo.specs.Rule.{IsKept, fresh};

    ghost holds = { IsKept };

    ghost first = { fresh };
}

/// A load of a gate.
pub struct Looks;

impl Play<(), View> for Looks {
    ghost use Rattle.summary_memo.specs.Rule.{Looked};

    ghost then = { Looked };
}

/// A load of a data word.
pub struct Masks;

impl Play<(), View> for Masks {
    ghost use Rattle.summary_memo.specs.Rule.{Masked};

    ghost then = { Masked };
}

/// Bits added to a data word.
pub struct Offers;

impl Play<(), View> for Offers {
    ghost use Rattle.summary_memo.specs.Rule.{Offered};

    ghost then = { Offered };
}

/// A gate shut.
pub struct Shuts;

impl Play<(), View> for Shuts {
    ghost use Rattle.summary_memo.specs.Rule.{Shutted};

    ghost then = { Shutted };
}

/// A second seat that knows the same.
pub struct Copies;

impl Split<View> for Copies {
    ghost left = { λ v. v };

    ghost right = { λ v. v };
}

/// One seat that knows what two knew.
pub struct Merges;

impl Join<View> for Merges {
    ghost use Rattle.summary_memo.specs.Rule.{both, spent};

    ghost both = { both };

    ghost spent = { spent };
}
