// Desks whose ends wait for each other: served at once each comes to its end, and attended one after another the first one doesn't.
ghost use Rattle.std.specs.Prelude.{◌≡◌, All, IfOk, OnOk, [], ◌++◌, ◌∷◌};
ghost use Rattle.session_form.specs.States.{AreListed};
ghost use Rattle.sessions.specs.Desks.{IsFresh};
ghost use Rattle.summary_memo.specs.Memo.{IsSeatOf};

use crate::samples::{CALLED, CALLS, calling};
use dep_form::facts::Facts;
use fact_form::laws::facts_list_each_statement;
use gates::gate::Gate;
use gates::sink::GateSink;
use gates::source::GateSource;
use program_loader::load;
use serving::serve::serve;
use sessions::attending::attend;
use sessions::desk::{Desk, Outcome};
use sessions::shared::Shared;
use slicer_ids::name::Name;
use std::alloc::Global;
use std::test::Fail;
use std::thread::Threads;
use summary_memo::memo::MemoSeat;

// More turns than the other session takes to its first reply.
const MANY: u64 = 1_000_000_000;

// The facts of the program of two calls.
fn facts(alloc: Global) -> Result<Facts, Fail>
    ensures { IfOk result AreListed }
{
    facts_list_each_statement();
    let mut host = calling(alloc)?;
    match load(alloc, &mut host, "f", None) {
        Ok((_, facts)) => Ok(facts),
        Err(_) => Err("load".into()),
    }
}

// A desk over its script, whose source waits at one gate, and whose sink opens the other.
fn desk<'s>(
    alloc: Global,
    shared: &'s Shared,
    seat: MemoSeat,
    waits: &Gate,
    opens: &Gate,
) -> Result<Desk<'s, GateSource, GateSink>, Fail>
    requires { IsSeatOf shared.now.memo seat }
    ensures { IfOk result (IsFresh shared.now) }
{
    let source = waits.source(Name::from_bytes(alloc, CALLS)?)?;
    let sink = opens.sink(Name::from_bytes(alloc, b"out")?)?;
    match Desk::open(alloc, shared, seat, source, sink) {
        Ok(desk) => Ok(desk),
        Err(_) => Err("desk".into()),
    }
}

// Two desks, each of which waits for the other.
fn two_desks<'s>(
    alloc: Global,
    shared: &'s Shared,
    seat: MemoSeat,
    turns: u64,
) -> Result<
    (
        Desk<'s, GateSource, GateSink>,
        Desk<'s, GateSource, GateSink>,
    ),
    Fail,
>
    requires { IsSeatOf shared.now.memo seat }
    ensures first { IfOk result (λ d. IsFresh shared.now d.0) }
    ensures second { IfOk result (λ d. IsFresh shared.now d.1) }
{
    let mut seat = seat;
    let own = shared.memo.split(&mut seat);
    let first = Gate::new(alloc, turns)?;
    let second = Gate::new(alloc, turns)?;
    let one = desk(alloc, shared, own, &first, &second)?;
    let other = desk(alloc, shared, seat, &second, &first)?;
    Ok((one, other))
}

// Both as a list.
fn listed<'s>(
    alloc: Global,
    one: Desk<'s, GateSource, GateSink>,
    other: Desk<'s, GateSource, GateSink>,
) -> Result<Vec<Desk<'s, GateSource, GateSink>>, Fail>
    ensures { IfOk result (λ v. v.items ≡ one.entry ∷ other.entry ∷ []) }
{
    let mut desks = Vec::new(alloc);
    desks.push(one)?;
    desks.push(other)?;
    Ok(desks)
}

// Whether the desk's script was served to its end, with its replies.
fn is_done(desk: &Desk<'_, GateSource, GateSink>) -> bool {
    desk.outcome == Some(Outcome::Done(2)) && desk.sink.bytes() == CALLED
}

#[test]
fn desks_are_served_at_once(rt: HostRuntime) -> Result<(), Fail> {
    let (shared, seat) = Shared::new(rt.alloc(), facts(rt.alloc())?)?;
    let (one, other) = two_desks(rt.alloc(), &shared, seat, MANY)?;
    let mut desks = listed(rt.alloc(), one, other)?;
    serve(&rt, rt.alloc(), &shared, &mut desks);
    assert!(rt; desks.iter().all(|desk| is_done(desk)));
    Ok(())
}

// The one that is attended first waits for the other in vain; the other finds its gate open.
#[test]
fn desks_one_after_another_wait_in_vain(rt: HostRuntime) -> Result<(), Fail> {
    let (shared, seat) = Shared::new(rt.alloc(), facts(rt.alloc())?)?;
    let (mut one, mut other) = two_desks(rt.alloc(), &shared, seat, 3)?;
    assert_eq!(rt;
        attend(rt.alloc(), &shared, &mut one),
        Outcome::ReadFault(1)
    );
    assert_eq!(rt; one.sink.bytes(), b"ok\n".as_slice());
    attend(rt.alloc(), &shared, &mut other);
    assert!(rt; is_done(&other));
    Ok(())
}

#[test]
fn desks_in_the_other_order_wait_in_vain(rt: HostRuntime) -> Result<(), Fail> {
    let (shared, seat) = Shared::new(rt.alloc(), facts(rt.alloc())?)?;
    let (mut one, mut other) = two_desks(rt.alloc(), &shared, seat, 3)?;
    assert_eq!(rt;
        attend(rt.alloc(), &shared, &mut other),
        Outcome::ReadFault(1)
    );
    assert_eq!(rt; other.sink.bytes(), b"ok\n".as_slice());
    attend(rt.alloc(), &shared, &mut one);
    assert!(rt; is_done(&one));
    Ok(())
}
