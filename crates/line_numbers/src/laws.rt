// What line tables say.
ghost use Rattle.std.specs.Prelude.{◌≡◌, ℕ, List, Option};
ghost use Rattle.line_numbers.specs.LineTables.{IsLineAt};

/// A program counter has one line, or none.
pub fn one_line()
    ensures { (lines : List (ℕ × ℕ)) (pc : ℕ) (a b : Option ℕ) → IsLineAt lines pc a → IsLineAt lines pc b → a ≡ b }
{}
