// The local certificate: each vertex is judged by its own label, its parent's and its targets'. All
// lists are read alone; a parent is used as an index only below n, and 1 is added only to a distance
// that is set.
ghost use Rattle.std.specs.Prelude.{◌≡◌, false, map, ◌<◌, length, get_or, IfSome};
ghost use Rattle.lists.specs.Lists.{elem, reaches};
ghost use Rattle.graph.specs.Graph.{rows_of};
ghost use Rattle.model.specs.Words.{option_of, labels_of};
ghost use Rattle.verify.specs.Certificate.{any_beyond, parent_wrong, vertex_wrong, result_wrong};
ghost use Rattle.verify.specs.Steps.{Checkable, label_in};

use numbers::UNSET;

// The label at this place of a list of distances or parents: `None` for unset.
#[tactic(auto, unfolding(model::specs::Words::option_of))]
fn label(list: &[u16], place: usize) -> Option<usize>
    requires { place < length list.now }
    ensures value { label_in result ≡ option_of (get_or list.now place 0) }
    ensures upper_bound { IfSome result (λ x. x < 65536) }
{
    match list[place] {
        UNSET => None,
        word => Some(usize::from(word)),
    }
}

// Whether some target of the row is unset or farther than `most`.
fn any_beyond(row: &[u16], distances: &[u16], most: usize) -> bool
    requires { reaches (length distances.now) row.now ≡ false }
    ensures { result ≡ any_beyond (map option_of distances.now) most row.now }
{
    for target in row {
        let Some(reached) = label(distances, usize::from(*target)) else {
            return true;
        };
        if most < reached {
            return true;
        }
    }
    false
}

// Whether the vertex stands in the row.
fn has_edge(row: &[u16], vertex: usize) -> bool
    ensures { result ≡ elem vertex row.now }
{
    row.iter().any(|target| vertex == usize::from(*target))
}

// A result for a graph's rows, and the source that it is of: as many distances and parents as vertices.
#[derive(Clone, Copy)]
pub struct Claim<'a> {
    pub source: usize,
    pub offsets: &'a [u16],
    pub targets: &'a [u16],
    pub distances: &'a [u16],
    pub parents: &'a [u16],
    ghost checkable: { Checkable source offsets.now targets.now distances.now parents.now },
}

impl<'a> Claim<'a> {
    // Whether the parent is wrong for the vertex at this distance, which is set: a right parent is a
    // vertex with a distance one less and an edge to this one.
    fn parent_wrong(&self, vertex: usize, distance: usize, parent: Option<usize>) -> bool
        ensures { result ≡ parent_wrong (rows_of self.now.offsets.now self.now.targets.now)
            (map option_of self.now.distances.now) vertex distance (label_in parent) }
    {
        let Some(parent) = parent else {
            return true;
        };
        if self.distances.len() <= parent {
            return true;
        }
        let Some(before) = label(self.distances, parent) else {
            return true;
        };
        if before + 1 != distance {
            return true;
        }
        !has_edge(view::links(self.offsets, self.targets, parent), vertex)
    }

    // Whether the vertex's distance or its parent is wrong.
    fn vertex_wrong(&self, vertex: usize) -> bool
        requires { vertex < length self.now.distances.now }
        ensures { result ≡ vertex_wrong (rows_of self.now.offsets.now self.now.targets.now) self.now.source
            (labels_of self.now.distances.now self.now.parents.now) vertex }
    {
        let parent = label(self.parents, vertex);
        let Some(distance) = label(self.distances, vertex) else {
            return vertex == self.source || parent.is_some();
        };
        let row = view::links(self.offsets, self.targets, vertex);
        if any_beyond(row, self.distances, distance + 1) {
            return true;
        }
        if vertex == self.source {
            return distance != 0 || parent != Some(self.source);
        }
        self.parent_wrong(vertex, distance, parent)
    }

    // Whether some vertex's distance or parent is wrong.
    pub fn result_wrong(&self) -> bool
        ensures { result ≡ result_wrong (rows_of self.now.offsets.now self.now.targets.now) self.now.source
            (labels_of self.now.distances.now self.now.parents.now) }
    {
        for vertex in 0..self.distances.len() {
            if self.vertex_wrong(vertex) {
                return true;
            }
        }
        false
    }
}
