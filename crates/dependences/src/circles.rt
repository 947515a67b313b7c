//! Instructions that depend on themselves through others.
use affine_rows::{Listed, Name};
use kernel_ir::{Insn, Refusal, Site};
use std::alloc::{AllocError, Global};

/// The place of the instruction with this id, or how many there are.
fn place_of(insns: &[Insn], id: &Name) -> usize {
    for at in 0..insns.len() {
        if insns[at].id.as_bytes() == id.as_bytes() {
            return at;
        }
    }
    insns.len()
}

/// The places of the dependences of each instruction.
fn edges_of(alloc: Global, insns: &[Insn]) -> Result<Vec<Vec<usize>>, AllocError> {
    let mut all = Vec::new(alloc);
    for insn in insns {
        let mut own = Vec::new(alloc);
        for id in insn.deps.as_slice() {
            own.push(place_of(insns, id))?;
        }
        all.push(own)?;
    }
    Ok(all)
}

/// Whether one of the places has a distance.
fn reaches(distances: &[Option<usize>], from: &[usize]) -> bool {
    from.iter()
        .any(|at| matches!(distances.get(*at), Some(Some(_))))
}

/// The distances of one step more: an instruction that depends on one with a distance is one further.
fn next_distances(
    alloc: Global,
    edges: &[Vec<usize>],
    distances: &[Option<usize>],
    step: usize,
) -> Result<Vec<Option<usize>>, AllocError> {
    let mut next = Vec::new(alloc);
    for at in 0..edges.len().min(distances.len()) {
        let own = match distances[at] {
            Some(distance) => Some(distance),
            None => {
                if reaches(distances, &edges[at]) {
                    Some(step)
                } else {
                    None
                }
            }
        };
        next.push(own)?;
    }
    Ok(next)
}

/// How many dependences there are on the shortest way from each instruction to the target, if there is a way.
fn distances_to(
    alloc: Global,
    edges: &[Vec<usize>],
    target: usize,
) -> Result<Vec<Option<usize>>, AllocError> {
    let mut distances = Vec::new(alloc);
    for own in edges {
        let direct = own.contains(&target);
        distances.push(if direct { Some(1) } else { None })?;
    }
    for step in 0..edges.len() {
        distances = next_distances(alloc, edges, &distances, step.saturating_add(2))?;
    }
    Ok(distances)
}

/// The first dependence with this distance.
fn first_at(edges: &[usize], distances: &[Option<usize>], distance: usize) -> usize {
    for at in edges {
        if *at < distances.len() && distances[*at] == Some(distance) {
            return *at;
        }
    }
    distances.len()
}

/// The ids on the first shortest way from the instruction to itself.
fn circle(
    alloc: Global,
    insns: &[Insn],
    edges: &[Vec<usize>],
    distances: &[Option<usize>],
    start: usize,
    length: usize,
) -> Result<Listed<Name>, AllocError> {
    let mut ids = Listed::new(alloc);
    let mut at = start;
    for step in 0..length {
        if at < insns.len() && at < edges.len() {
            ids.push(insns[at].id.copy(alloc)?)?;
            at = first_at(&edges[at], distances, length - 1 - step);
        }
    }
    Ok(ids)
}

fn dep_cycle(alloc: Global, line: u32, ids: &[Name]) -> Result<Refusal, AllocError> {
    let mut refusal = Refusal::of_rule(alloc, Site::Kernel, 12).at_line(line);
    for id in ids {
        refusal = refusal.with_name(alloc, id)?;
    }
    Ok(refusal)
}

/// Rule 12 where an instruction reaches itself through dependences: it keeps the ids of the first such instruction in order,
/// then of its first dependence on a shortest way back, and so on. A dependence on an id that no instruction has counts for
/// nothing. The only error is want of memory.
pub fn first_circle(alloc: Global, insns: &[Insn]) -> Result<Option<Refusal>, AllocError> {
    let edges = edges_of(alloc, insns)?;
    for at in 0..insns.len().min(edges.len()) {
        let distances = distances_to(alloc, &edges, at)?;
        if let Some(Some(length)) = distances.get(at) {
            let ids = circle(alloc, insns, &edges, &distances, at, *length)?;
            return Ok(Some(dep_cycle(alloc, insns[at].line, ids.as_slice())?));
        }
    }
    Ok(None)
}
