// Which methods classes select, by class, and then in the order of signatures.
ghost use Rattle.std.specs.Prelude.{◌≡◌, ◌↔◌, ◌<◌, ◌≤◌, ℕ, Contains, IfOk, OnOk, length, slice_index_or};
ghost use Rattle.std.specs.List.Sorted.{IsNonDecreasingBy};
ghost use Rattle.slicer_ids.specs.declared.ids.ClassId.{ClassId};
ghost use Rattle.slicer_ids.specs.declared.ids.MethodId.{MethodId};
ghost use Rattle.points_to.specs.Indexes.{AddsSelect, AreGroupsOf, AreSorted, SortsGroup, group_of};

use slicer_ids::ids::{ClassId, MethodId, NoMemory};
use std::alloc::Global;

/// What a class selects for a signature.
#[derive(Clone, Copy)]
pub struct Select {
    pub signature: u32,
    pub target: Option<MethodId>,
}

fn widen(alloc: Global, groups: &mut Vec<Vec<Select>>, class: usize) -> Result<(), NoMemory>
    ensures same { OnOk result ((c : ℕ) → group_of groups.new.items c ≡ group_of groups.old.items c) }
    ensures len { OnOk result (class < length groups.new.items) }
{
    while groups.len() <= class {
        groups.push(Vec::new(alloc))?;
    }
    Ok(())
}

fn add(
    alloc: Global,
    groups: &mut Vec<Vec<Select>>,
    class: ClassId,
    select: Select,
) -> Result<(), NoMemory>
    ensures { OnOk result (AddsSelect groups.old.items groups.new.items class.0 select) }
{
    let number = class.0 as usize;
    widen(alloc, groups, number)?;
    groups[number].push(select)?;
    Ok(())
}

fn grouped(
    alloc: Global,
    selects: &[(u32, ClassId, Option<MethodId>)],
) -> Result<Vec<Vec<Select>>, NoMemory>
    ensures { IfOk result (λ groups. AreGroupsOf selects.now groups.items) }
{
    let mut groups = Vec::new(alloc);
    for entry in selects {
        let select = Select {
            signature: entry.0,
            target: entry.2,
        };
        add(alloc, &mut groups, entry.1, select)?;
    }
    Ok(groups)
}

fn sort_group(group: &mut Vec<Select>)
    ensures same { (x : Select) → Contains group.new.items x ↔ Contains group.old.items x }
    ensures sorted { IsNonDecreasingBy (λ (x : Select). x.signature) group.new.items }
{
    group.sort_unstable_by_key(|select| select.signature);
}

fn sort_at(groups: &mut Vec<Vec<Select>>, at: usize)
    requires { at < length groups.old.items }
    ensures { SortsGroup groups.old.items groups.new.items at }
{
    sort_group(&mut groups[at]);
}

fn sort_all(groups: &mut Vec<Vec<Select>>)
    ensures same { (c : ℕ) (x : Select) → Contains (group_of groups.new.items c) x ↔ Contains (group_of groups.old.items c) x }
    ensures sorted { AreSorted groups.new.items }
{
    for at in 0..groups.len() {
        sort_at(groups, at);
    }
}

/// What each class selects, by class, in the order of signatures.
pub fn group(
    alloc: Global,
    selects: &[(u32, ClassId, Option<MethodId>)],
) -> Result<Vec<Vec<Select>>, NoMemory>
    ensures groups { IfOk result (λ groups. AreGroupsOf selects.now groups.items) }
    ensures sorted { IfOk result (λ groups. AreSorted groups.items) }
{
    let mut groups = grouped(alloc, selects)?;
    sort_all(&mut groups);
    Ok(groups)
}

fn first_of(group: &[Select], signature: u32) -> usize
    requires { IsNonDecreasingBy (λ (x : Select). x.signature) group.now }
    ensures bound { result ≤ length group.now }
    ensures before { (k : ℕ) (d : Select) → k < result → (slice_index_or group.now k d).signature < signature }
    ensures after { (k : ℕ) (d : Select) → result ≤ k → k < length group.now → signature ≤ (slice_index_or group.now k d).signature }
{
    group.partition_point(|select| select.signature < signature)
}

fn end_of(group: &[Select], signature: u32) -> usize
    requires { IsNonDecreasingBy (λ (x : Select). x.signature) group.now }
    ensures bound { result ≤ length group.now }
    ensures before { (k : ℕ) (d : Select) → k < result → (slice_index_or group.now k d).signature ≤ signature }
    ensures after { (k : ℕ) (d : Select) → result ≤ k → k < length group.now → signature < (slice_index_or group.now k d).signature }
{
    group.partition_point(|select| select.signature <= signature)
}

/// What a class selects for a signature, among what it selects in the order of signatures.
pub fn selected(group: &[Select], signature: u32) -> &[Select]
    requires { IsNonDecreasingBy (λ (x : Select). x.signature) group.now }
    ensures { (x : Select) → Contains result.now x ↔ (Contains group.now x × (x.signature ≡ signature)) }
{
    let first = first_of(group, signature);
    let end = end_of(group, signature);
    if first < end { &group[first..end] } else { &[] }
}
