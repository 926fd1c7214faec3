ghost use Rattle.std.specs.Prelude.{◌<◌, List, Vec, ℕ, length, IfErr, OnOk, IfOk, All};
ghost use Rattle.std.specs.List.Sorted.{IsStrictlyIncreasing};
ghost use Rattle.std.specs.declared.alloc.Global.{Global};
ghost use Rattle.schema_build_graph.specs.Graph.{AllReached, InRange};
ghost use Rattle.schema_build_graph.specs.Order.{IsLeastCyclicOf, IsLeastFault, IsLeastMarked, IsOrder, NoneCyclic};
ghost use Rattle.schema_build_graph.specs.Search.{IsFirstCyclic};

use crate::order_fault::OrderFault;
use crate::search::{State, searched};
use std::alloc::Global;

// The first vertex that is told to reach itself.
fn first_cyclic(states: &[State]) -> Option<usize>
    ensures { IsFirstCyclic states.now result }
{
    for vertex in 0..states.len() {
        if let State::Done(true) = states[vertex] {
            return Some(vertex);
        }
    }
    None
}

/// The vertices in an order in which each stands behind its targets, exactly where none reaches itself; else the least
/// that does. It looks at each vertex and at each edge once.
pub fn order_or_least(alloc: Global, graph: &[Vec<usize>]) -> Result<Vec<usize>, OrderFault>
    requires { InRange (length graph.now) graph.now }
    ensures order { IfOk result (λ order. IsOrder graph.now order.items) }
    ensures acyclic { OnOk result (NoneCyclic graph.now) }
    ensures fault { IfErr result (IsLeastFault graph.now) }
{
    let search = searched(alloc, graph)?;
    match first_cyclic(&search.states) {
        Some(least) => Err(OrderFault::Cycle(least)),
        None => Ok(search.done),
    }
}

/// The least vertex that reaches itself, where one does: the first whose row holds it. The rows are a graph's closure.
pub fn least_cyclic(rows: &[Vec<usize>]) -> Option<usize>
    ensures { (graph : List (Vec ℕ Global)) → AllReached graph rows.now → IsLeastCyclicOf graph result }
{
    for vertex in 0..rows.len() {
        if rows[vertex].contains(&vertex) {
            return Some(vertex);
        }
    }
    None
}

/// The least marked vertex of a row, where one is marked. The row rises, and `marks` tells of each vertex whether it is
/// marked.
pub fn least_marked(row: &[usize], marks: &[bool]) -> Option<usize>
    requires rising { IsStrictlyIncreasing row.now }
    requires range { All (λ v. v < length marks.now) row.now }
    ensures { IsLeastMarked row.now marks.now result }
{
    for &vertex in row {
        if marks[vertex] {
            return Some(vertex);
        }
    }
    None
}
