// One session.
ghost use Rattle.std.specs.Prelude.{◌≡◌, ◌≢◌, ◌⊎◌, [], AllPairs, Contains, IfOk, IfErr, OnOk, OnErr, Ok, None, true, false};
ghost use Rattle.slicer_ids.specs.Order.{StatementBefore};
ghost use Rattle.slicer_ids.specs.Sets.{IsOrderedListOf};
ghost use Rattle.dep_form.specs.Slices.{StatementsOf};
ghost use Rattle.graph_store.specs.Store.{IsPassOf, HasInputsOf, Keeps};
ghost use Rattle.session_walk.specs.Knowledge.{HasRows};
ghost use Rattle.session_slices.specs.Needs.{SliceOf, HasNeeded};
ghost use Rattle.session_slices.specs.Rooms.{IsFinderOf, statements_in};
ghost use Rattle.slicer_ids.specs.declared.ids.Statement.{Statement};
ghost use Rattle.summary_memo.specs.Memo.{view_of, IsSeatOf};
ghost use Rattle.summary_memo.specs.Rule.{Knows};
ghost use Rattle.script.specs.declared.command.Place.{Place};
ghost use Rattle.script.specs.declared.command.Command.TheVariants as command;
ghost use Rattle.script.specs.declared.command.Command.TheVariants.{Blank};
ghost use Rattle.dep_form.specs.LookUps.{IsAccessAt};
ghost use Rattle.session_form.specs.Places.{NamesAccess};
ghost use Rattle.report.specs.Replies.{answer_of, Done};
ghost use Rattle.session_form.specs.States.{at_first, AreListed, SeedNodes};
ghost use Rattle.session_form.specs.Answers.{Answers};
ghost use Rattle.session_state.specs.Telling.{answer_of as told_of};
ghost use Rattle.sessions.specs.Keeping.{answer_kept};
ghost use Rattle.sessions.specs.Needed.{HasForReply, HasRowsForReply, IsPlain, TakesNoMemory};
ghost use Rattle.sessions.specs.Turns.{TakesTurns};
ghost use Rattle.sessions.specs.Widened.{accesses_in, KeepsSlice};
ghost use Rattle.sessions.specs.Sessions.{IsSessionOf, answer_in};
ghost use Rattle.sessions.specs.Answering.{IsAnswered, IsWide, AsksWide, LeavesKept, left_by};

use crate::kept::Kept;
use crate::nodes::is_none;
use crate::shared::Shared;
use crate::widened::{Widened, statements_kept, widen_kept};
use dep_form::access::Access;
use graph_store::pass::GraphPass;
use report::reply::{CommandError, Reply};
use script::command::{Command, Place};
use session_places::naming::access_at;
use session_slices::explaining::explain_two;
use session_slices::finder::SliceFinder;
use session_slices::lines::lines_of;
use session_state::state::SessionState;
use session_state::told::Told;
use slicer_ids::ids::{Mode, NoMemory};
use slicer_ids::name::Name;
use slicer_ids::steps::Steps;
use std::alloc::Global;
use std::sync::ledger::Ledger;
use summary_memo::memo::MemoSeat;

/// What one session has been told, what it has seen of the shared graphs and knows of the shared summaries, the slice that it keeps to
/// widen it, and what it is to show. When it is opened it takes 17 bytes for each node of the facts and 40 or so for each method.
#[derive(Drop)]
pub struct Session<'s> {
    state: SessionState,
    widened: Option<Widened>,
    finder: SliceFinder,
    pass: GraphPass<'s>,
    seat: MemoSeat,
    kept: Kept,
}

// What is shown and kept after a command that tells the session something.
fn note(told: Told, widened: &mut Option<Widened>) -> Kept
    ensures shown { (ss : _) → answer_kept ss result ≡ told_of told }
    ensures kept { widened.new ≡ left_by told widened.old }
{
    match told {
        Told::Same => Kept::Done,
        Told::Other => {
            *widened = None;
            Kept::Done
        }
        Told::Refused(error) => Kept::Refused(error),
    }
}

// Whether there is no seed.
fn has_no_seed(state: &SessionState) -> bool
    ensures yes { result ≡ true → state.now.seeds ≡ [] }
    ensures no { result ≡ false → state.now.seeds ≢ [] }
{
    is_none(state.seeds())
}

// Whether no access is expanded.
fn has_no_expansion(state: &SessionState) -> bool
    ensures yes { result ≡ true → state.now.expanded ≡ [] }
    ensures no { result ≡ false → state.now.expanded ≢ [] }
{
    is_none(state.expanded())
}

// Whether its slice has accesses expanded.
fn is_wide(state: &SessionState) -> bool
    ensures yes { result ≡ true → IsWide state.now }
    ensures no { result ≡ false → (state.now.seeds ≡ []) ⊎ (state.now.expanded ≡ []) }
{
    if has_no_seed(state) {
        return false;
    }
    !has_no_expansion(state)
}

// Finds the slice of the seeds in a mode, thin with no access expanded or full.
fn find_seeds<'s, L: Ledger>(
    alloc: Global,
    shared: &'s Shared,
    pass: &mut GraphPass<'s>,
    seat: &mut MemoSeat,
    finder: &mut SliceFinder,
    state: &SessionState,
    mode: Mode,
    steps: &mut Steps<L>,
) -> Result<(), NoMemory>
    requires pass { IsPassOf shared.now.store.cells.items pass.old }
    requires inputs { HasInputsOf shared.now.facts pass.old }
    requires seat { IsSeatOf shared.now.memo seat.old }
    requires finder { IsFinderOf shared.now.facts finder.old }
    requires order { AllPairs StatementBefore state.now.seeds }
    ensures pass { IsPassOf shared.now.store.cells.items pass.new }
    ensures inputs { HasInputsOf shared.now.facts pass.new }
    ensures keeps { Keeps pass.old pass.new }
    ensures seat { IsSeatOf shared.now.memo seat.new }
    ensures knows { Knows (view_of seat.old) (view_of seat.new) }
    ensures finder { IsFinderOf shared.now.facts finder.new }
    ensures statements { OnOk result (IsOrderedListOf StatementBefore (statements_in finder.new) (StatementsOf shared.now.facts.inputs (SliceOf shared.now.facts mode (SeedNodes shared.now.facts state.now)))) }
    ensures needed { OnOk result (HasNeeded shared.now.facts mode (SliceOf shared.now.facts mode (SeedNodes shared.now.facts state.now)) pass.new (view_of seat.new)) }
    ensures had { HasNeeded shared.now.facts mode (SliceOf shared.now.facts mode (SeedNodes shared.now.facts state.now)) pass.old (view_of seat.old) → (result ≡ Ok tt) × (steps.new ≡ steps.old) }
    ensures rows { HasRows shared.now.facts mode (SliceOf shared.now.facts mode (SeedNodes shared.now.facts state.now)) (view_of seat.old) → steps.new ≡ steps.old }
{
    finder.find(
        alloc,
        &shared.facts,
        &shared.store,
        pass,
        &shared.memo,
        seat,
        state.seeds(),
        mode,
        steps,
    )
}

impl<'s> Session<'s> {
    /// A session that has been told nothing. The seat is given back where there is no memory.
    pub fn open(
        alloc: Global,
        shared: &'s Shared,
        seat: MemoSeat,
    ) -> Result<Session<'s>, (NoMemory, MemoSeat)>
        requires { IsSeatOf shared.now.memo seat }
        ensures session { IfOk result (IsSessionOf shared.now) }
        ensures start { IfOk result (λ s. (s.state ≡ at_first) × (view_of s.seat ≡ view_of seat)) }
        ensures none { IfOk result (λ s. s.widened ≡ None) }
        ensures seat { IfErr result (λ e. e.1 ≡ seat) }
    {
        let finder = match SliceFinder::new(alloc, &shared.facts) {
            Ok(finder) => finder,
            Err(error) => return Err((error, seat)),
        };
        let pass = match shared.store.open_pass() {
            Ok(pass) => pass,
            Err(error) => return Err((error, seat)),
        };
        Ok(Session {
            state: SessionState::new(alloc),
            widened: None,
            finder,
            pass,
            seat,
            kept: Kept::Done,
        })
    }

    /// The reply to the last command; `Done` where it was refused for want of memory.
    pub fn reply(&self) -> Reply<'_>
        ensures { answer_of result ≡ answer_in self.now }
    {
        match &self.kept {
            Kept::Done => Reply::Done,
            Kept::Statements => Reply::Statements(self.finder.statements()),
            Kept::Widened(statements) => Reply::Statements(statements.as_slice()),
            Kept::Lines(lines) => Reply::Lines(lines.as_slice()),
            Kept::Explained(explanation) => Reply::Explained(explanation),
            Kept::Refused(error) => Reply::Error(*error),
        }
    }

    // The command that adds a statement to the seeds.
    fn seed<L: Ledger>(
        &mut self,
        shared: &'s Shared,
        place: &Place,
        steps: &mut Steps<L>,
    ) -> Result<Kept, NoMemory>
        requires { IsSessionOf shared.now self.old }
        ensures { IsAnswered shared.now (command.Seed place.now) result self.old self.new steps.old steps.new }
    {
        let told = self.state.seed(&shared.facts, place)?;
        Ok(note(told, &mut self.widened))
    }

    // The command that adds the statements of a class at a line to the seeds.
    fn seed_line<L: Ledger>(
        &mut self,
        shared: &'s Shared,
        name: &Name,
        line: u16,
        steps: &mut Steps<L>,
    ) -> Result<Kept, NoMemory>
        requires { IsSessionOf shared.now self.old }
        ensures { IsAnswered shared.now (command.SeedLine name.now line) result self.old self.new steps.old steps.new }
    {
        let told = self.state.seed_line(&shared.facts, name, line)?;
        Ok(note(told, &mut self.widened))
    }

    // The command that drops all seeds and expansions.
    fn reset<L: Ledger>(
        &mut self,
        shared: &'s Shared,
        steps: &mut Steps<L>,
    ) -> Result<Kept, NoMemory>
        requires { IsSessionOf shared.now self.old }
        ensures { IsAnswered shared.now command.Reset result self.old self.new steps.old steps.new }
    {
        self.state.reset();
        self.widened = None;
        Ok(Kept::Done)
    }

    // The command that expands an access.
    fn expand<L: Ledger>(
        &mut self,
        shared: &'s Shared,
        place: &Place,
        steps: &mut Steps<L>,
    ) -> Result<Kept, NoMemory>
        requires { IsSessionOf shared.now self.old }
        ensures { IsAnswered shared.now (command.Expand place.now) result self.old self.new steps.old steps.new }
    {
        let told = self.state.expand(&shared.facts, place)?;
        Ok(note(told, &mut self.widened))
    }

    // The command that expands all accesses.
    fn expand_all<L: Ledger>(
        &mut self,
        alloc: Global,
        shared: &'s Shared,
        steps: &mut Steps<L>,
    ) -> Result<Kept, NoMemory>
        requires { IsSessionOf shared.now self.old }
        ensures { IsAnswered shared.now command.ExpandAll result self.old self.new steps.old steps.new }
    {
        self.state.expand_all(alloc, &shared.facts)?;
        Ok(Kept::Done)
    }

    // The slice, where no access is expanded.
    fn plain_slice<L: Ledger>(
        &mut self,
        alloc: Global,
        shared: &'s Shared,
        steps: &mut Steps<L>,
    ) -> Result<Kept, NoMemory>
        requires session { IsSessionOf shared.now self.old }
        requires plain { IsPlain self.old.state command.Slice }
        ensures { IsAnswered shared.now command.Slice result self.old self.new steps.old steps.new }
    {
        if has_no_seed(&self.state) {
            return Ok(Kept::Refused(CommandError::NoSeed));
        }
        find_seeds(
            alloc,
            shared,
            &mut self.pass,
            &mut self.seat,
            &mut self.finder,
            &self.state,
            Mode::Thin,
            steps,
        )?;
        Ok(Kept::Statements)
    }

    // The command that asks for the full slice.
    fn full<L: Ledger>(
        &mut self,
        alloc: Global,
        shared: &'s Shared,
        steps: &mut Steps<L>,
    ) -> Result<Kept, NoMemory>
        requires { IsSessionOf shared.now self.old }
        ensures { IsAnswered shared.now command.Full result self.old self.new steps.old steps.new }
    {
        if has_no_seed(&self.state) {
            return Ok(Kept::Refused(CommandError::NoSeed));
        }
        find_seeds(
            alloc,
            shared,
            &mut self.pass,
            &mut self.seat,
            &mut self.finder,
            &self.state,
            Mode::Full,
            steps,
        )?;
        Ok(Kept::Statements)
    }

    // The lines of the slice, where no access is expanded.
    fn plain_lines<L: Ledger>(
        &mut self,
        alloc: Global,
        shared: &'s Shared,
        steps: &mut Steps<L>,
    ) -> Result<Kept, NoMemory>
        requires session { IsSessionOf shared.now self.old }
        requires listed { AreListed shared.now.facts }
        requires plain { IsPlain self.old.state command.Lines }
        ensures { IsAnswered shared.now command.Lines result self.old self.new steps.old steps.new }
    {
        if has_no_seed(&self.state) {
            return Ok(Kept::Refused(CommandError::NoSeed));
        }
        find_seeds(
            alloc,
            shared,
            &mut self.pass,
            &mut self.seat,
            &mut self.finder,
            &self.state,
            Mode::Thin,
            steps,
        )?;
        let lines = lines_of(alloc, &shared.facts, self.finder.statements())?;
        Ok(Kept::Lines(lines))
    }

    // The slice, where accesses are expanded.
    fn wide_slice<L: Ledger>(
        &mut self,
        alloc: Global,
        shared: &'s Shared,
        steps: &mut Steps<L>,
    ) -> Result<Kept, NoMemory>
        requires session { IsSessionOf shared.now self.old }
        requires wide { IsWide self.old.state }
        ensures { IsAnswered shared.now command.Slice result self.old self.new steps.old steps.new }
    {
        widen_kept(
            alloc,
            &shared.facts,
            &shared.store,
            &mut self.pass,
            &self.state,
            &mut self.widened,
            steps,
        )?;
        let statements = statements_kept(alloc, &shared.facts, &self.state, &self.widened)?;
        Ok(Kept::Widened(statements))
    }

    // The lines of the slice, where accesses are expanded.
    fn wide_lines<L: Ledger>(
        &mut self,
        alloc: Global,
        shared: &'s Shared,
        steps: &mut Steps<L>,
    ) -> Result<Kept, NoMemory>
        requires session { IsSessionOf shared.now self.old }
        requires listed { AreListed shared.now.facts }
        requires wide { IsWide self.old.state }
        ensures { IsAnswered shared.now command.Lines result self.old self.new steps.old steps.new }
    {
        widen_kept(
            alloc,
            &shared.facts,
            &shared.store,
            &mut self.pass,
            &self.state,
            &mut self.widened,
            steps,
        )?;
        let statements = statements_kept(alloc, &shared.facts, &self.state, &self.widened)?;
        let lines = lines_of(alloc, &shared.facts, statements.as_slice())?;
        Ok(Kept::Lines(lines))
    }

    // The command that asks for the slice.
    fn slice<L: Ledger>(
        &mut self,
        alloc: Global,
        shared: &'s Shared,
        steps: &mut Steps<L>,
    ) -> Result<Kept, NoMemory>
        requires { IsSessionOf shared.now self.old }
        ensures { IsAnswered shared.now command.Slice result self.old self.new steps.old steps.new }
    {
        if is_wide(&self.state) {
            self.wide_slice(alloc, shared, steps)
        } else {
            self.plain_slice(alloc, shared, steps)
        }
    }

    // The command that asks for the lines of the slice.
    fn lines<L: Ledger>(
        &mut self,
        alloc: Global,
        shared: &'s Shared,
        steps: &mut Steps<L>,
    ) -> Result<Kept, NoMemory>
        requires session { IsSessionOf shared.now self.old }
        requires listed { AreListed shared.now.facts }
        ensures { IsAnswered shared.now command.Lines result self.old self.new steps.old steps.new }
    {
        if is_wide(&self.state) {
            self.wide_lines(alloc, shared, steps)
        } else {
            self.plain_lines(alloc, shared, steps)
        }
    }

    // How two accesses of the facts come to one object.
    fn explain_named<L: Ledger>(
        &mut self,
        alloc: Global,
        shared: &'s Shared,
        a: &Access,
        b: &Access,
        steps: &mut Steps<L>,
    ) -> Result<Kept, NoMemory>
        requires session { IsSessionOf shared.now self.old }
        requires left { (s : Statement) × IsAccessAt shared.now.facts s a.now }
        requires right { (s : Statement) × IsAccessAt shared.now.facts s b.now }
        ensures { (x y : Place) (s t : Statement) → NamesAccess shared.now.facts x s a.now → NamesAccess shared.now.facts y t b.now → IsAnswered shared.now (command.Explain x y) result self.old self.new steps.old steps.new }
    {
        let explanation = explain_two(
            alloc,
            &shared.facts,
            &shared.store,
            &mut self.pass,
            &shared.memo,
            &mut self.seat,
            &mut self.finder,
            a,
            b,
            steps,
        )?;
        Ok(Kept::Explained(explanation))
    }

    // How an access of the facts and one that a place names come to one object.
    fn explain_first<L: Ledger>(
        &mut self,
        alloc: Global,
        shared: &'s Shared,
        a: &Access,
        right: &Place,
        steps: &mut Steps<L>,
    ) -> Result<Kept, NoMemory>
        requires session { IsSessionOf shared.now self.old }
        requires left { (x : Place) × (s : Statement) × NamesAccess shared.now.facts x s a.now }
        ensures { (x : Place) (s : Statement) → NamesAccess shared.now.facts x s a.now → IsAnswered shared.now (command.Explain x right.now) result self.old self.new steps.old steps.new }
    {
        match access_at(&shared.facts, right) {
            Ok(named) => self.explain_named(alloc, shared, a, named.access, steps),
            Err(error) => Ok(Kept::Refused(error)),
        }
    }

    // The command that asks how two accesses come to one object.
    fn explain<L: Ledger>(
        &mut self,
        alloc: Global,
        shared: &'s Shared,
        left: &Place,
        right: &Place,
        steps: &mut Steps<L>,
    ) -> Result<Kept, NoMemory>
        requires { IsSessionOf shared.now self.old }
        ensures { IsAnswered shared.now (command.Explain left.now right.now) result self.old self.new steps.old steps.new }
    {
        match access_at(&shared.facts, left) {
            Ok(named) => self.explain_first(alloc, shared, named.access, right, steps),
            Err(error) => Ok(Kept::Refused(error)),
        }
    }

    // What is to be shown after a command.
    fn take<L: Ledger>(
        &mut self,
        alloc: Global,
        shared: &'s Shared,
        command: &Command,
        steps: &mut Steps<L>,
    ) -> Result<Kept, NoMemory>
        requires session { IsSessionOf shared.now self.old }
        requires listed { AreListed shared.now.facts }
        requires command { command.now ≢ Blank }
        ensures { IsAnswered shared.now command.now result self.old self.new steps.old steps.new }
    {
        match command {
            Command::Blank => unreachable!(),
            Command::Seed(place) => self.seed(shared, place, steps),
            Command::SeedLine(name, line) => self.seed_line(shared, name, *line, steps),
            Command::Reset => self.reset(shared, steps),
            Command::Slice => self.slice(alloc, shared, steps),
            Command::Full => self.full(alloc, shared, steps),
            Command::Lines => self.lines(alloc, shared, steps),
            Command::Expand(place) => self.expand(shared, place, steps),
            Command::ExpandAll => self.expand_all(alloc, shared, steps),
            Command::Explain(left, right) => self.explain(alloc, shared, left, right, steps),
        }
    }

    /// Answers a command; `reply` then has its reply. A command that is refused, and one for which there is no memory, leaves what the
    /// session was told. What the pass has seen it has seen, and what the seat knows it knows; after an answer they have all that the
    /// reply needs. Where the seat knew the rows that it needs, no turn is taken; where the pass had seen the graphs too, `slice`
    /// without expansions and `full` take no memory. A slice with expansions takes a turn for each path edge that it needs, but for those that the slice which is kept needed: that of the same
    /// seeds, with accesses that had been expanded.
    pub fn answer<L: Ledger>(
        &mut self,
        alloc: Global,
        shared: &'s Shared,
        command: &Command,
        steps: &mut Steps<L>,
    ) -> Result<(), NoMemory>
        requires session { IsSessionOf shared.now self.old }
        requires listed { AreListed shared.now.facts }
        requires command { command.now ≢ Blank }
        ensures session { IsSessionOf shared.now self.new }
        ensures keeps { Keeps self.old.pass self.new.pass }
        ensures knows { Knows (view_of self.old.seat) (view_of self.new.seat) }
        ensures answer { OnOk result (Answers shared.now.facts self.old.state command.now (answer_in self.new) self.new.state) }
        ensures unchanged { OnErr result (self.new.state ≡ self.old.state) }
        ensures done { OnErr result (answer_in self.new ≡ Done) }
        ensures needed { OnOk result (HasForReply shared.now.facts self.old.state command.now self.new.pass (view_of self.new.seat)) }
        ensures had { IsPlain self.old.state command.now → HasForReply shared.now.facts self.old.state command.now self.old.pass (view_of self.old.seat) → steps.new ≡ steps.old }
        ensures rows { IsPlain self.old.state command.now → HasRowsForReply shared.now.facts self.old.state command.now (view_of self.old.seat) → steps.new ≡ steps.old }
        ensures free { TakesNoMemory self.old.state command.now → HasForReply shared.now.facts self.old.state command.now self.old.pass (view_of self.old.seat) → result ≡ Ok tt }
        ensures turns { OnOk result (AsksWide self.old.state command.now → TakesTurns shared.now.facts (Contains self.old.state.expanded) (SeedNodes shared.now.facts self.old.state) (accesses_in self.old.widened) steps.old steps.new) }
        ensures leaves { OnOk result (LeavesKept command.now self.old.state self.new.state self.old.widened self.new.widened) }
        ensures kept { OnErr result (KeepsSlice self.old.widened self.new.widened) }
    {
        match self.take(alloc, shared, command, steps) {
            Ok(kept) => {
                self.kept = kept;
                Ok(())
            }
            Err(error) => {
                self.kept = Kept::Done;
                Err(error)
            }
        }
    }
}
