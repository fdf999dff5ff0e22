// Calls of `search::search`, each compared with what it must answer and leave. The nine lists may be
// longer than what is lent of them. What distances and parents hold after a search is left to the
// caller; the counts must be those of the distances.
use numbers::Refused;
use search::Answer;
use searchkit::compare::{
    DISTANCES_TAG, HISTOGRAM_TAG, LEFT_TAG, MARKS_TAG, OFFSETS_TAG, PARENTS_TAG, RIGHT_TAG,
    TARGETS_TAG, VALUES_TAG, are_labels_kept, are_nodes_cleared, is_left, labelled, used_nodes,
};
use searchkit::histogram::are_counts;
use searchkit::requests::{Outcome, Request, Seen};
use testkit::sample::Graph;
use testkit::words::{first, lent};

// The nine lists of a call: N places for the vertices, M for the edges, K for the nodes.
#[derive(Drop)]
pub struct Room<const N: usize, const M: usize, const K: usize> {
    offsets: [u16; N],
    targets: [u16; M],
    marks: [u16; M],
    pub distances: [u16; N],
    pub parents: [u16; N],
    pub histogram: [u16; N],
    left: [u16; K],
    right: [u16; K],
    values: [u16; K],
}

// Room for n up to 40 and m up to 110, and a few places more.
pub type Small = Room<48, 118, 370>;

// Room for every n and m of document 01, and a few places more.
pub type Large = Room<4102, 32773, 32774>;

// The number of an answer, and the counts of the run; zeros beside a refusal.
fn seen_of(answer: Result<Answer, Refused>) -> Seen {
    let (used, effective, layer) = match answer {
        Ok(run) => (run.used, run.effective, run.layer),
        Err(_) => (0, 0, 0),
    };
    Seen {
        number: search::number(&answer),
        used,
        effective,
        layer,
    }
}

impl<const N: usize, const M: usize, const K: usize> Room<N, M, K> {
    // Lists with a number of its own at all places of each.
    pub fn new() -> Self {
        Room {
            offsets: [OFFSETS_TAG; N],
            targets: [TARGETS_TAG; M],
            marks: [MARKS_TAG; M],
            distances: [DISTANCES_TAG; N],
            parents: [PARENTS_TAG; N],
            histogram: [HISTOGRAM_TAG; N],
            left: [LEFT_TAG; K],
            right: [RIGHT_TAG; K],
            values: [VALUES_TAG; K],
        }
    }

    // Searches with the first places of the file, the schedule and each list.
    fn search(
        &mut self,
        file: &[u8],
        schedule: &[u8],
        request: Request,
    ) -> Result<Answer, Refused> {
        let lengths = request.lengths;
        search::search(
            first(file, request.file),
            usize::from(request.source),
            usize::from(request.workers),
            first(schedule, request.schedule),
            lent(&mut self.offsets, lengths.offsets),
            lent(&mut self.targets, lengths.targets),
            lent(&mut self.marks, lengths.marks),
            lent(&mut self.distances, lengths.distances),
            lent(&mut self.parents, lengths.parents),
            lent(&mut self.histogram, lengths.histogram),
            lent(&mut self.left, lengths.left),
            lent(&mut self.right, lengths.right),
            lent(&mut self.values, lengths.values),
        )
    }

    // Whether all lists are as the answer says, but the first n labels of a search that was played;
    // its counts must be those of the distances, and positive up to the layer.
    fn is_left(&self, seen: Seen, request: Request, graph: Graph) -> bool {
        let same = is_left(
            seen,
            request,
            &self.offsets,
            &self.targets,
            &self.marks,
            graph.rows,
            graph.row_targets,
        );
        let place = labelled(seen.number, request.vertices);
        let labels = are_labels_kept(&self.distances, &self.parents, &self.histogram, place);
        let counts = are_counts(seen, &self.distances, &self.histogram, request.vertices);
        let count = used_nodes(seen.number, request.vertices, request.workers);
        let nodes = are_nodes_cleared(&self.left, &self.right, &self.values, count);
        same & labels & counts & nodes
    }

    // Searches, and compares.
    pub fn call(&mut self, graph: Graph, schedule: &[u8], request: Request) -> Outcome {
        let seen = seen_of(self.search(graph.file, schedule, request));
        let right = self.is_left(seen, request, graph);
        Outcome { seen, right }
    }
}
