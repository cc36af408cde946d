// What holds of any replies, and of any run. Nothing runs here.
ghost use Rattle.std.specs.Prelude.{◌≡◌, ◌≢◌, ◌⊎◌, ℕ, List, [], Contains, Option, Some, IfSome};
ghost use Rattle.slicer_ids.specs.Sets.{IsOrderedListOf};
ghost use Rattle.slicer_ids.specs.declared.ids.Statement.{Statement};
ghost use Rattle.edge_io.specs.Files.{Files, IsFolder};
ghost use Rattle.dep_form.specs.LookUps.{HasLine};
ghost use Rattle.dep_form.specs.declared.facts.Facts.{Facts};
ghost use Rattle.script.specs.declared.command.Command.TheVariants.{ExpandAll, Slice, Full, Lines};
ghost use Rattle.report.specs.declared.reply.LinePlace.{LinePlace};
ghost use Rattle.report.specs.Replies.{Answer};
ghost use Rattle.report.specs.Replies as reply;
ghost use Rattle.session_form.specs.Places.{IsAccess};
ghost use Rattle.session_form.specs.States.{State, LineBefore, InFullSlice};
ghost use Rattle.session_form.specs.Answers.{Answers};
ghost use Rattle.words.specs.Scripts.{AreScripts};
ghost use Rattle.words.specs.declared.request.Request.{Request};
ghost use Rattle.run_form.specs.Runs.{IsAccepted, RunOf};
ghost use Rattle.run_form.specs.Endings.{RunsAs};

/// Where each access is expanded, the reply to `slice` is the reply to `full`, and `lines` lists the lines of the full slice. So it is
/// after `expand *`.
pub fn all_expanded_replies_are_full()
    ensures slice { (f : Facts) (before s t : State) (a b : Answer) → ((x : Statement) → IsAccess f x → Contains before.expanded x) → Answers f before Slice a s → Answers f before Full b t → a ≡ b }
    ensures lines { (f : Facts) (before s : State) (a : Answer) (ls : List LinePlace) → ((x : Statement) → IsAccess f x → Contains before.expanded x) → before.seeds ≢ [] → Answers f before Lines a s → IsOrderedListOf LineBefore ls (λ (l : LinePlace). (x : Statement) × InFullSlice f before x × (l.method ≡ x.method) × HasLine f x l.line) → a ≡ reply.Lines ls }
    ensures after_expand_all { (f : Facts) (before after s t : State) (done a b : Answer) → Answers f before ExpandAll done after → Answers f after Slice a s → Answers f after Full b t → a ≡ b }
{}

/// A run that is asked for scripts that can be served beside one another, over a folder that is there and isn't accepted, has status 4.
/// So a run that answers 1 or what its definition gives, as the headline says, answers 4 or 1.
pub fn folders_that_are_not_accepted_are_refused()
    ensures definition { (m : Files) (r : Request) (status : ℕ) (told : List ℕ) (after : Files) → AreScripts r.scripts → IsFolder m r.folder → (IsAccepted m r → ⊥) → RunOf m (Some r) status told after → status ≡ 4 }
    ensures run { (files files_after : Option Files) (said said_after : Option (List ℕ)) (r : Request) (status : ℕ) → AreScripts r.scripts → (status ≡ 1) ⊎ RunsAs files files_after said said_after (Some r) status → IfSome files (λ m. IsFolder m r.folder → (IsAccepted m r → ⊥) → (status ≡ 4) ⊎ (status ≡ 1)) }
{}
