ghost use Rattle.std.specs.Prelude.{◌≡◌, ◌≢◌, ◌<◌, ◌⊎◌, ℕ, [], ◌∷◌, ◌++◌, List, length, All, Contains, Some, None};
ghost use Rattle.std.specs.Prelude.{OnOk, IfOk};
ghost use Rattle.schema_build_graph.specs.Graph.{InRange};
ghost use Rattle.schema_build_graph.specs.Search.{AreStacked, IsMerged, Keeps, AllSeen, IsSeen, state_at, weight_of};
ghost use Rattle.schema_build_graph.specs.declared.search.Group.{Group};

use std::alloc::{AllocError, Global};

/// How far the search is with a vertex.
#[derive(Clone, Copy)]
pub(crate) enum State {
    New,
    /// It stands at this place.
    Open(usize),
    /// All that it leads to is done, and it is told whether it reaches itself.
    Done(bool),
}

/// Vertices that reach each other: those that stand from a place on, with the targets of theirs that were not looked
/// at.
#[derive(Clone, Copy)]
pub(crate) struct Group {
    standing: usize,
    targets: usize,
}

/// A search in depth, with the vertices that stand open, in groups that lead each to the next.
#[derive(Drop)]
pub(crate) struct Search {
    pub(crate) states: Vec<State>,
    standing: Vec<usize>,
    targets: Vec<usize>,
    groups: Vec<Group>,
    /// Each stands behind its targets, but for those that reach themselves.
    pub(crate) done: Vec<usize>,
}

// The vertices are done.
fn mark_done(states: &mut [State], vertices: &[usize], cyclic: bool)
    requires { All (λ v. v < length states.old) vertices.now }
    ensures same { length states.new ≡ length states.old }
    ensures marked { All (λ v. state_at states.new v ≡ State.Done cyclic) vertices.now }
    ensures others { (v : ℕ) → (Contains vertices.now v → ⊥) → state_at states.new v ≡ state_at states.old v }
    ensures each { (v : ℕ) → (state_at states.new v ≡ State.Done cyclic)
        ⊎ (state_at states.new v ≡ state_at states.old v) }
{
    for &vertex in vertices {
        states[vertex] = State::Done(cyclic);
    }
}

// The groups that begin behind the place are one with the group of the place.
fn merge(groups: &mut Vec<Group>, place: usize)
    requires { AreStacked groups.old.items }
    ensures { IsMerged place groups.old.items groups.new.items }
{
    let mut kept = groups.len();
    while kept > 0 && groups[kept - 1].standing > place {
        kept -= 1;
    }
    groups.truncate(kept);
}

impl Search {
    // A vertex that is new begins a group, and all its targets are to be looked at.
    fn open(&mut self, graph: &[Vec<usize>], vertex: usize) -> Result<(), AllocError>
        requires searched { Keeps graph.now self.old (Some vertex) }
        requires new { state_at self.old.states.items vertex ≡ State.New }
        ensures searched { OnOk result (Keeps graph.now self.new None) }
        ensures smaller { OnOk result (weight_of graph.now self.new < weight_of graph.now self.old) }
        ensures seen { OnOk result (AllSeen self.old self.new) }
        ensures here { OnOk result (IsSeen self.new vertex) }
    {
        self.states[vertex] = State::Open(self.standing.len());
        self.groups.push(Group {
            standing: self.standing.len(),
            targets: self.targets.len(),
        })?;
        self.standing.push(vertex)?;
        self.targets.extend_from_slice(&graph[vertex])?;
        Ok(())
    }

    // All targets of the last group were looked at: its vertices are done.
    fn close(&mut self, graph: &[Vec<usize>], group: Group) -> Result<(), AllocError>
        requires searched { Keeps graph.now self.old None }
        requires last { (before : List Group) × (self.old.groups.items ≡ before ++ group ∷ []) }
        requires looked { group.targets ≡ length self.old.targets.items }
        ensures searched { OnOk result (Keeps graph.now self.new None) }
        ensures smaller { OnOk result (weight_of graph.now self.new < weight_of graph.now self.old) }
        ensures seen { OnOk result (AllSeen self.old self.new) }
    {
        let vertices = &self.standing[group.standing..];
        let cyclic = if vertices.len() == 1 {
            graph[vertices[0]].contains(&vertices[0])
        } else {
            true
        };
        mark_done(&mut self.states, vertices, cyclic);
        self.done.extend_from_slice(vertices)?;
        self.standing.truncate(group.standing);
        self.groups.truncate(self.groups.len() - 1);
        Ok(())
    }

    // The last target of the last group is the next to look at.
    fn take_target(&mut self, graph: &[Vec<usize>], group: Group) -> usize
        requires graph { InRange (length graph.now) graph.now }
        requires searched { Keeps graph.now self.old None }
        requires last { (before : List Group) × (self.old.groups.items ≡ before ++ group ∷ []) }
        requires some { group.targets ≢ length self.old.targets.items }
        ensures searched { Keeps graph.now self.new (Some result) }
        ensures smaller { weight_of graph.now self.new < weight_of graph.now self.old }
        ensures seen { AllSeen self.old self.new }
    {
        let left = self.targets.len() - 1;
        let target = self.targets[left];
        self.targets.truncate(left);
        target
    }

    // One turn: the last group is done, or one of its targets is looked at.
    fn step(&mut self, graph: &[Vec<usize>]) -> Result<(), AllocError>
        requires graph { InRange (length graph.now) graph.now }
        requires searched { Keeps graph.now self.old None }
        requires open { 0 < length self.old.groups.items }
        ensures searched { OnOk result (Keeps graph.now self.new None) }
        ensures smaller { OnOk result (weight_of graph.now self.new < weight_of graph.now self.old) }
        ensures seen { OnOk result (AllSeen self.old self.new) }
    {
        let group = self.groups[self.groups.len() - 1];
        if group.targets == self.targets.len() {
            return self.close(graph, group);
        }
        let target = self.take_target(graph, group);
        match self.states[target] {
            State::New => self.open(graph, target),
            State::Open(place) => {
                merge(&mut self.groups, place);
                Ok(())
            }
            State::Done(_) => Ok(()),
        }
    }

    // The search goes on until all that the vertex leads to, and the vertex, is done.
    fn visit(&mut self, graph: &[Vec<usize>], root: usize) -> Result<(), AllocError>
        requires graph { InRange (length graph.now) graph.now }
        requires root { root < length graph.now }
        requires new { state_at self.old.states.items root ≡ State.New }
        requires searched { Keeps graph.now self.old None }
        requires idle { self.old.groups.items ≡ [] }
        ensures searched { OnOk result (Keeps graph.now self.new None) }
        ensures idle { OnOk result (self.new.groups.items ≡ []) }
        ensures seen { OnOk result (AllSeen self.old self.new) }
        ensures here { OnOk result (IsSeen self.new root) }
    {
        self.open(graph, root)?;
        while !self.groups.is_empty() {
            self.step(graph)?;
        }
        Ok(())
    }
}

/// The search of a whole graph.
pub(crate) fn searched(alloc: Global, graph: &[Vec<usize>]) -> Result<Search, AllocError>
    requires { InRange (length graph.now) graph.now }
    ensures searched { IfOk result (λ s. Keeps graph.now s None) }
    ensures idle { IfOk result (λ s. s.groups.items ≡ []) }
    ensures whole { IfOk result (λ s. (v : ℕ) → v < length graph.now → IsSeen s v) }
{
    let mut search = Search {
        states: vec![in alloc; State::New; graph.len()]?,
        standing: Vec::new(alloc),
        targets: Vec::new(alloc),
        groups: Vec::new(alloc),
        done: Vec::with_capacity(alloc, graph.len())?,
    };
    for root in 0..graph.len() {
        if let State::New = search.states[root] {
            search.visit(graph, root)?;
        }
    }
    Ok(search)
}
