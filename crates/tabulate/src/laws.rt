// Laws of the search. Nothing runs here.
ghost use Rattle.std.specs.Prelude.{◌≡◌, ℕ, List, Some, Contains};
ghost use Rattle.bit_rows.specs.Words.{IsIn};
ghost use Rattle.bit_rows.specs.Adds.{Taken};
ghost use Rattle.slicer_ids.specs.declared.ids.NodeId.{NodeId};
ghost use Rattle.slicer_ids.specs.declared.ids.ExitId.{ExitId};
ghost use Rattle.slicer_ids.specs.declared.ids.Mode.{Mode};
ghost use Rattle.dep_form.specs.declared.facts.Facts.{Facts};
ghost use Rattle.dep_form.specs.declared.node.Edge.{Edge};
ghost use Rattle.dep_form.specs.Inputs.{IsEdge};
ghost use Rattle.dep_form.specs.Paths.{HasSameLevelPath};
ghost use Rattle.dep_form.specs.Slices.{ModeEdges};
ghost use Rattle.dep_form.specs.Summaries.{IsRow};
ghost use Rattle.tabulate.specs.declared.found.Found.{Found};
ghost use Rattle.tabulate.specs.declared.hands.Hands.{Hands};
ghost use Rattle.tabulate.specs.Hands.{hand_of};
ghost use Rattle.tabulate.specs.Found.{Got, Todo, Takes};
ghost use Rattle.tabulate.specs.Rules.{FromOne, Follows};
ghost use Rattle.tabulate.specs.States.{IsDone, IsGood, Open, OfNode};

/// Where all that follows was found and nothing waits, a same-level path carries a pair back to its start.
pub fn done_searches_are_whole()
    ensures { (p : Facts) (mode : Mode) (h : Hands) (ts : List Found) → ((d : ExitId) (bits : List ℕ) → hand_of h d.0 ≡ Some bits → IsRow p mode d bits) → IsDone p mode h (Got p ts) (λ _. ⊥) → (n e : NodeId) (x : ℕ) → HasSameLevelPath (ModeEdges p.inputs mode) n e → Got p ts (e.0, x) → Got p ts (n.0, x) }
{}

/// What follows from good pairs by the edges into a node is good: there is a same-level path to an exit that was asked for.
pub fn what_follows_is_good()
    ensures { (p : Facts) (mode : Mode) (h : Hands) (asked : List ExitId) (ts : List Found) (n : NodeId) (delta : List ℕ) (es : List Edge) → ((d : ExitId) (bits : List ℕ) → hand_of h d.0 ≡ Some bits → IsRow p mode d bits) → ((x : ℕ) → IsIn delta x → IsGood p mode asked (n.0, x)) → ((q : ℕ × ℕ) → Got p ts q → IsGood p mode asked q) → ((e : Edge) → Contains es e → IsEdge p.inputs e × (e.to ≡ n)) → (q : ℕ × ℕ) → FromOne (Follows p mode h n delta) es (Taken (Got p ts) (Todo p ts)) q → IsGood p mode asked q }
{}

/// What waited at a node is open until it is followed.
pub fn taken_bits_are_open()
    ensures { (p : Facts) (mode : Mode) (h : Hands) (ts ts' : List Found) (n : NodeId) (delta : List ℕ) → Takes p ts ts' n.0 delta → IsDone p mode h (Got p ts) (Todo p ts) → IsDone p mode h (Got p ts') (Open (Todo p ts') (OfNode n delta)) }
{}
