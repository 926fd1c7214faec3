ghost use Rattle.std.specs.Prelude.{◌≡◌, ◌<◌, ℕ, true, length, All, Contains, IfOk};
ghost use Rattle.schema_build_graph.specs.Graph.{InRange};
ghost use Rattle.schema_build_graph.specs.Needed.{AreAllClosed, IsWanted, MarksLedTo, MarksToo};
ghost use Rattle.schema_build_graph.specs.Order.{IsOrder, StandBehind, is_marked};

use std::alloc::{AllocError, Global};

// Marks these vertices too.
fn mark(marks: &mut [bool], vertices: &[usize])
    requires { All (λ v. v < length marks.old) vertices.now }
    ensures { MarksToo vertices.now marks.old marks.new }
{
    for &vertex in vertices {
        marks[vertex] = true;
    }
}

// Marks what the marked vertices lead to, from the last of the order to the first: each stands behind its targets.
fn mark_led_to(marks: &mut [bool], graph: &[Vec<usize>], order: &[usize])
    requires graph { InRange (length graph.now) graph.now }
    requires order { IsOrder graph.now order.now }
    requires marks { length marks.old ≡ length graph.now }
    ensures same { length marks.new ≡ length marks.old }
    ensures stay { (v : ℕ) → is_marked marks.old v ≡ true → is_marked marks.new v ≡ true }
    ensures closed { AreAllClosed graph.now marks.new }
    ensures only { MarksLedTo graph.now marks.old marks.new }
{
    let mut left = order.len();
    while left > 0 {
        left -= 1;
        let vertex = order[left];
        if marks[vertex] {
            mark(marks, &graph[vertex]);
        }
    }
}

// The marks of the roots and of what they lead to.
fn marks_of(
    alloc: Global,
    graph: &[Vec<usize>],
    order: &[usize],
    roots: &[usize],
) -> Result<Vec<bool>, AllocError>
    requires graph { InRange (length graph.now) graph.now }
    requires order { IsOrder graph.now order.now }
    requires roots { All (λ v. v < length graph.now) roots.now }
    ensures same { IfOk result (λ marks. length marks.items ≡ length graph.now) }
    ensures closed { IfOk result (λ marks. AreAllClosed graph.now marks.items) }
    ensures roots { IfOk result (λ marks. All (λ v. is_marked marks.items v ≡ true) roots.now) }
    ensures only { IfOk result (λ marks. (v : ℕ) → is_marked marks.items v ≡ true → IsWanted graph.now roots.now v) }
{
    let mut marks = vec![in alloc; false; graph.len()]?;
    mark(&mut marks, roots);
    mark_led_to(&mut marks, graph, order);
    Ok(marks)
}

/// Of an order in which each vertex stands behind its targets, some in which each does so too: the roots, and what they
/// lead to. It looks at each vertex once, and at the edges of those alone.
pub fn needed(
    alloc: Global,
    graph: &[Vec<usize>],
    order: &[usize],
    roots: &[usize],
) -> Result<Vec<usize>, AllocError>
    requires graph { InRange (length graph.now) graph.now }
    requires order { IsOrder graph.now order.now }
    requires roots { All (λ v. v < length graph.now) roots.now }
    ensures below { IfOk result (λ kept. All (λ v. v < length graph.now) kept.items) }
    ensures behind { IfOk result (λ kept. StandBehind graph.now kept.items) }
    ensures roots { IfOk result (λ kept. All (Contains kept.items) roots.now) }
    ensures only { IfOk result (λ kept. All (IsWanted graph.now roots.now) kept.items) }
{
    let marks = marks_of(alloc, graph, order, roots)?;
    let mut kept = Vec::new(alloc);
    for &vertex in order {
        if marks[vertex] {
            kept.push(vertex)?;
        }
    }
    Ok(kept)
}
