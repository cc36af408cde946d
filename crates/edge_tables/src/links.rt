// All calls of a program, each with each method that it may go to, by the methods called and by those that call.
ghost use Rattle.std.specs.Prelude.{◌≡◌, ◌<◌, ◌≤◌, ◌+◌, ◌↔◌, ◌^◌, true, false, Contains, IfOk, OnOk, Some, length, slice_get};
ghost use Rattle.std.specs.List.Sorted.{IsPartitionPoint};
ghost use Rattle.std.proofs.Common.{leb, ltb};
ghost use Rattle.slicer_ids.specs.declared.ids.MethodId.{MethodId};
ghost use Rattle.dep_form.specs.declared.call_site.CallSite.{CallSite};
ghost use Rattle.dep_form.specs.Constraints.{IsCallSite};
ghost use Rattle.dep_form.specs.Orders.{RiseBy};
ghost use Rattle.mod_ref.specs.Gains.{Gains};
ghost use Rattle.worklists.specs.Growth.{FromOne};
ghost use Rattle.worklists.proofs.Growing.{FromBelow};
ghost use Rattle.edge_tables.specs.declared.links.Link.{Link};
ghost use Rattle.edge_tables.specs.Links.{AreLinks, IsAnyLink, IsCallLink, IsEntryLink, IsLinkTo, link_cmp, link_of};
ghost use Rattle.edge_tables.specs.Scenes.{IsScene};

use crate::scene::Scene;
use dep_form::system::System;
use method_facts::entries::root_of;
use method_facts::solved::targets_of;
use slicer_ids::ids::{CallId, MethodId, NoMemory, Statement};
use std::alloc::Global;

/// A call, the method and program counter of its nodes, and a method that it may go to. The key is the method called, or the one that
/// calls.
#[derive(Clone, Copy, PartialEq, Eq, PartialOrd, Ord)]
pub struct Link {
    pub key: MethodId,
    pub number: CallId,
    pub caller: MethodId,
    pub pc: u16,
    pub target: MethodId,
}

/// The calls of a program by the methods called, and by those that call, in order. A call takes 40 bytes for each method that it may go
/// to.
#[derive(Drop)]
pub struct Links {
    pub by_target: Vec<Link>,
    pub by_caller: Vec<Link>,
}

fn key_of(by_target: bool, caller: MethodId, target: MethodId) -> MethodId
    ensures target { by_target ≡ true → result ≡ target }
    ensures caller { by_target ≡ false → result ≡ caller }
{
    if by_target { target } else { caller }
}

fn link_of(by_target: bool, number: CallId, caller: MethodId, pc: u16, target: MethodId) -> Link
    ensures { result ≡ link_of by_target number caller pc target }
{
    Link {
        key: key_of(by_target, caller, target),
        number,
        caller,
        pc,
        target,
    }
}

fn push(links: &mut Vec<Link>, link: Link) -> Result<(), NoMemory>
    ensures { OnOk result (Gains links.old.items links.new.items (λ x. x ≡ link)) }
{
    match links.push(link) {
        Ok(()) => Ok(()),
        Err(_) => Err(NoMemory),
    }
}

fn add_target(
    links: &mut Vec<Link>,
    by_target: bool,
    number: CallId,
    place: Statement,
    target: MethodId,
) -> Result<(), NoMemory>
    ensures { OnOk result (Gains links.old.items links.new.items (IsLinkTo by_target number place target)) }
{
    push(
        links,
        link_of(by_target, number, place.method, place.pc, target),
    )
}

fn add_targets(
    links: &mut Vec<Link>,
    by_target: bool,
    number: CallId,
    place: Statement,
    targets: &[MethodId],
) -> Result<(), NoMemory>
    ensures { OnOk result (Gains links.old.items links.new.items (FromOne (IsLinkTo by_target number place) targets.now)) }
{
    for target in targets {
        add_target(links, by_target, number, place, *target)?;
    }
    Ok(())
}

fn place_of(system: &System, number: CallId) -> Option<Statement>
    requires { number.0 < length system.now.calls }
    ensures { (k : CallSite) × IsCallSite system.now number k × (k.place ≡ result) }
{
    system.calls.items()[number.0 as usize].place
}

// Adds the call of this number.
fn add_call(
    links: &mut Vec<Link>,
    scene: &Scene<'_>,
    by_target: bool,
    number: CallId,
) -> Result<(), NoMemory>
    requires scene { IsScene scene.now }
    requires number { number.0 < length scene.now.system.now.calls }
    ensures { OnOk result (Gains links.old.items links.new.items (IsCallLink by_target scene.now.system.now number.0)) }
{
    match place_of(scene.system, number) {
        None => Ok(()),
        Some(place) => {
            let targets = targets_of(scene.solution, number);
            add_targets(links, by_target, number, place, targets)
        }
    }
}

fn add_calls(links: &mut Vec<Link>, scene: &Scene<'_>, by_target: bool) -> Result<(), NoMemory>
    requires { IsScene scene.now }
    ensures { OnOk result (Gains links.old.items links.new.items (FromBelow (IsCallLink by_target scene.now.system.now) (length scene.now.system.now.calls))) }
{
    for number in 0..scene.system.calls.items().len() {
        add_call(links, scene, by_target, CallId(number as u32))?;
    }
    Ok(())
}

fn entry_at(scene: &Scene<'_>, n: usize) -> MethodId
    requires { n < length scene.now.entries.now }
    ensures { slice_get scene.now.entries.now n ≡ Some result }
{
    scene.entries[n]
}

// Adds the root's call of this number.
fn add_entry(
    links: &mut Vec<Link>,
    scene: &Scene<'_>,
    by_target: bool,
    n: usize,
) -> Result<(), NoMemory>
    requires scene { IsScene scene.now }
    requires number { n < length scene.now.entries.now }
    ensures { OnOk result (Gains links.old.items links.new.items (IsEntryLink by_target scene.now.system.now scene.now.entries.now n)) }
{
    let target = entry_at(scene, n);
    let place = Statement {
        method: root_of(scene.system),
        pc: n as u16,
    };
    let number = CallId((scene.system.calls.items().len() + n) as u32);
    add_target(links, by_target, number, place, target)
}

fn add_entries(links: &mut Vec<Link>, scene: &Scene<'_>, by_target: bool) -> Result<(), NoMemory>
    requires { IsScene scene.now }
    ensures { OnOk result (Gains links.old.items links.new.items (FromBelow (IsEntryLink by_target scene.now.system.now scene.now.entries.now) (length scene.now.entries.now))) }
{
    for n in 0..scene.entries.len() {
        add_entry(links, scene, by_target, n)?;
    }
    Ok(())
}

fn in_order(links: Vec<Link>) -> Vec<Link>
    ensures order { RiseBy link_cmp (λ x. x) result.items }
    ensures members { (x : Link) → Contains result.items x ↔ Contains links.items x }
{
    let mut all = links;
    all.sort_unstable();
    all.dedup();
    all
}

fn sorted_links(alloc: Global, scene: &Scene<'_>, by_target: bool) -> Result<Vec<Link>, NoMemory>
    requires { IsScene scene.now }
    ensures { IfOk result (λ v. AreLinks by_target scene.now.system.now scene.now.entries.now v.items) }
{
    let mut links = Vec::new(alloc);
    add_calls(&mut links, scene, by_target)?;
    add_entries(&mut links, scene, by_target)?;
    Ok(in_order(links))
}

/// The calls of a program with the methods that they may go to: those of statements by their numbers in the system, and after them those
/// of the root.
pub fn links_of(alloc: Global, scene: &Scene<'_>) -> Result<Links, NoMemory>
    requires { IsScene scene.now }
    ensures by_target { IfOk result (λ l. AreLinks true scene.now.system.now scene.now.entries.now l.by_target.items) }
    ensures by_caller { IfOk result (λ l. AreLinks false scene.now.system.now scene.now.entries.now l.by_caller.items) }
{
    let by_target = sorted_links(alloc, scene, true)?;
    let by_caller = sorted_links(alloc, scene, false)?;
    Ok(Links {
        by_target,
        by_caller,
    })
}

fn count_before(links: &[Link], m: u32) -> usize
    requires { RiseBy link_cmp (λ x. x) links.now }
    ensures bound { result ≤ length links.now }
    ensures point { IsPartitionPoint (λ (x : Link). ltb x.key.0 m ≡ true) (λ (x : Link). ltb x.key.0 m ≡ false) links.now result }
{
    links.partition_point(|x| x.key.0 < m)
}

fn count_through(links: &[Link], m: u32) -> usize
    requires { RiseBy link_cmp (λ x. x) links.now }
    ensures bound { result ≤ length links.now }
    ensures point { IsPartitionPoint (λ (x : Link). leb x.key.0 m ≡ true) (λ (x : Link). leb x.key.0 m ≡ false) links.now result }
{
    links.partition_point(|x| x.key.0 <= m)
}

/// Those whose key is the method.
pub fn of_method(links: &[Link], m: MethodId) -> &[Link]
    requires { RiseBy link_cmp (λ x. x) links.now }
    ensures { (x : Link) → Contains result.now x ↔ (Contains links.now x × (x.key.0 ≡ m.0)) }
{
    let low = count_before(links, m.0);
    let high = count_through(links, m.0);
    &links[low..high]
}
