// Laws of the definitions. Nothing runs here.
ghost use Rattle.std.specs.Prelude.{◌≡◌, ℕ, List, length};
ghost use Rattle.slicer_ids.specs.Sets.{IsListOf};
ghost use Rattle.bit_rows.specs.Words.{IsIn, AreWords, ones_of};

/// A row has as many bits as a list of its members, each once, is long.
pub fn bits_are_members()
    ensures { (words : List ℕ) → AreWords words → (xs : List ℕ) × IsListOf xs (IsIn words) × (ones_of words ≡ length xs) }
{}
