// Laws of walks. Nothing runs here.
ghost use Rattle.std.specs.Prelude.{◌≡◌, ◌≢◌, true, List, AllPairs};
ghost use Rattle.thin_slice.specs.Needs.{is_need};
ghost use Rattle.thin_slice.specs.Calls.{Call, AreCalls};

/// No two calls of a walk between two starts name the same graph or row.
pub fn needs_are_named_once()
    ensures { (calls : List Call) → AreCalls calls → AllPairs (λ a b. is_need a.answer ≡ true → b.answer ≢ a.answer) calls }
{}
