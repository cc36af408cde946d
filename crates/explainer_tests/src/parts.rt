// Sites, accesses and values of a program.

use dep_form::access::Access;
use dep_form::texts::SiteName;
use slice_tests::examples::at;
use slicer_ids::ids::{NoMemory, NodeId, SiteId, Statement};
use slicer_ids::list::List;
use slicer_ids::name::Name;
use std::alloc::Global;

/// The first site of a statement.
pub fn site(alloc: Global, class: &[u8], method: u32, pc: u16) -> Result<SiteName, NoMemory> {
    Ok(SiteName {
        class: Name::from_bytes(alloc, class)?,
        place: Some(at(method, pc)),
        k: 0,
    })
}

/// The array that main is given.
pub fn root_site(alloc: Global) -> Result<SiteName, NoMemory> {
    Ok(SiteName {
        class: Name::from_bytes(alloc, b"[Ljava/lang/String;")?,
        place: None,
        k: 0,
    })
}

/// An access whose object is produced at a node and may be these sites.
pub fn access_of(
    alloc: Global,
    method: u32,
    pc: u16,
    object: u32,
    sites: &[SiteId],
) -> Result<(Statement, Access), NoMemory> {
    let access = Access {
        object: List::from_vec(vec![in alloc; NodeId(object)]?),
        sites: List::from_vec(Vec::from_slice(alloc, sites)?),
    };
    Ok((at(method, pc), access))
}

/// Adds the values of a method's statements, that may be these sites.
pub fn add_values(
    alloc: Global,
    values: &mut Vec<(Statement, List<SiteId>)>,
    method: u32,
    listed: &[(u16, &[SiteId])],
) -> Result<(), NoMemory> {
    for (pc, sites) in listed {
        let sites = Vec::from_slice(alloc, *sites)?;
        values.push((at(method, *pc), List::from_vec(sites)))?;
    }
    Ok(())
}
