ghost use Rattle.std.specs.Prelude.{◌≡◌, ◌<◌, ◌≤◌, ◌+◌, All, Contains, IfOk, OnOk, length};
ghost use Rattle.schema_build_graph.specs.Graph.{InRange, AreReached, AllReached};
ghost use Rattle.schema_build_graph.specs.Marks.{IsMarked, AddsFrom};

use std::alloc::{AllocError, Global};

/// Adds those of the targets that aren't marked yet, and marks them.
fn add_new(
    found: &mut Vec<usize>,
    marks: &mut [usize],
    stamp: usize,
    targets: &[usize],
) -> Result<(), AllocError>
    requires range { All (λ v. v < length marks.old) targets.now }
    requires marked { IsMarked stamp found.old.items marks.old }
    ensures marked { OnOk result (IsMarked stamp found.new.items marks.new) }
    ensures added { OnOk result (AddsFrom targets.now found.old.items found.new.items) }
    ensures covers { OnOk result (All (Contains found.new.items) targets.now) }
{
    for &target in targets {
        if marks[target] != stamp {
            marks[target] = stamp;
            found.push(target)?;
        }
    }
    Ok(())
}

// Leaves the vertices that some path with at least one step leads to, in rising order. A vertex is marked in this round
// where its mark is the stamp, which is larger than all marks before.
fn reach(
    found: &mut Vec<usize>,
    graph: &[Vec<usize>],
    start: usize,
    marks: &mut [usize],
    stamp: usize,
) -> Result<(), AllocError>
    requires graph { InRange (length graph.now) graph.now }
    requires start { start < length graph.now }
    requires marks { length marks.old ≡ length graph.now }
    requires stamp { All (λ m. m < stamp) marks.old }
    ensures reached { OnOk result (AreReached graph.now start found.new.items) }
    ensures marks { OnOk result (All (λ m. m ≤ stamp) marks.new) }
{
    found.clear();
    add_new(found, marks, stamp, &graph[start])?;
    let mut at = 0;
    while at < found.len() {
        let next = found[at];
        add_new(found, marks, stamp, &graph[next])?;
        at += 1;
    }
    found.sort_unstable();
    Ok(())
}

/// For each vertex what it reaches, each row with just its room.
pub fn closure(alloc: Global, graph: &[Vec<usize>]) -> Result<Vec<Vec<usize>>, AllocError>
    requires { InRange (length graph.now) graph.now }
    ensures { IfOk result (λ rows. AllReached graph.now rows.items) }
{
    let mut marks = vec![in alloc; 0; graph.len()]?;
    let mut found = Vec::new(alloc);
    let mut rows = Vec::with_capacity(alloc, graph.len())?;
    for start in 0..graph.len() {
        reach(&mut found, graph, start, &mut marks, start + 1)?;
        rows.push(Vec::from_slice(alloc, &found)?)?;
    }
    Ok(rows)
}
