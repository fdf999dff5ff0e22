// The steps of reading, in the order of their refusals. The search and the checker take the same
// steps with checks of their own between them. Each may assume what the steps before it showed. Casts
// to 16 bits are of numbers whose bound is proved there: `try_from` and `unwrap` ask for the same.
ghost use Rattle.std.specs.Prelude.{◌≡◌, ℕ, ◌+◌, ◌*◌, ◌-◌, ◌<◌, ◌≤◌, min, length, get_or, drop, IfOk};
ghost use Rattle.numbers.specs.Refusals.{first};
ghost use Rattle.numbers.specs.Told.{told};
ghost use Rattle.lists.specs.Lists.{overlay};
ghost use Rattle.graph.specs.Graph.{offsets_of, targets_of};
ghost use Rattle.graph.specs.File.{head_index, graph_of};
ghost use Rattle.graph.specs.File.{word as File·word};
ghost use Rattle.graph.specs.Answers.{answer_of};
ghost use Rattle.graph.specs.Read.{outside_sizes, scan_refusals, chain_refusals, rows_short};
ghost use Rattle.graph.specs.Steps.{file_answer, Sized, Chained, Ranked, Unchained};

use crate::Survey;
use crate::words::{element, largest_word, word, word16};
use numbers::{Refused, told};

// The bytes of n and m, which every file begins with.
const HEADER_BYTES: usize = 4;

// Whether n or m is outside its size.
#[tactic(auto, unfolding(crate::specs::Read::outside_sizes))]
pub fn outside_sizes(n: usize, m: usize) -> bool
    ensures { result ≡ outside_sizes n m }
{
    n == 0 || numbers::MAX_VERTICES < n || numbers::MAX_EDGES < m
}

// The tests that reader, search and checker begin with: 1 (under 4), 2, 1 (length), 4, 3; what passes
// them is a survey of this file.
pub fn examine(file: &[u8]) -> Result<Survey<'_>, Refused>
    ensures value { answer_of result ≡ file_answer file.now }
    ensures same_file { IfOk result (λ survey. survey.file.now ≡ file.now) }
{
    if file.len() < HEADER_BYTES {
        return Err(Refused::BadLength);
    }
    let n = word(file, 0);
    let m = word(file, 1);
    if outside_sizes(n, m) {
        return Err(Refused::BadSize);
    }
    if file.len() != 2 * (2 + n + 2 * m) {
        return Err(Refused::BadLength);
    }
    scan(file, n, m)?;
    Ok(Survey {
        file,
        vertices: n,
        edges: m,
    })
}

// 4 over the whole file, then 3: by the largest head or next and the largest target, in one pass over
// the records with no exit on the way.
fn scan(file: &[u8], n: usize, m: usize) -> Result<(), Refused>
    requires { Sized file.now n m }
    ensures { told result ≡ first (scan_refusals file.now) }
{
    let mut index = largest_word(file, 2, n);
    let mut target = 0;
    for i in 0..m {
        target = target.max(word16(file, n + 2 + 2 * i));
        index = index.max(word16(file, n + 3 + 2 * i));
    }
    if m < usize::from(index) {
        return Err(Refused::BadIndex);
    }
    if n <= usize::from(target) {
        return Err(Refused::BadTarget);
    }
    Ok(())
}

// 20: whether one of the three lists, by its length, is shorter than its need.
#[tactic(auto, unfolding(crate::specs::Read::rows_short))]
pub fn rows_short(n: usize, m: usize, offsets: usize, targets: usize, marks: usize) -> bool
    ensures { result ≡ rows_short n m offsets targets marks }
{
    offsets <= n || targets < m || marks < m
}

// The next index of the record; for 0, which is no record, the word before the first record.
fn next_of(records: &[u8], index: usize) -> usize
    requires { 4 * index + 3 < length records.now }
    ensures { result ≡ File·word records.now (2 * index + 1) }
{
    word(records, 2 * index + 1)
}

impl Survey<'_> {
    // 5, 6; only then rows are written. Marks are working room: the first m are cleared before and
    // after, whatever they hold at entry. The walk's number is tested and not its refusal handed on by `?`:
    // the marks are cleared in any case, and two edits change the test.
    pub fn unchain(
        &self,
        offsets: &mut [u16],
        targets: &mut [u16],
        marks: &mut [u16],
    ) -> Result<(), Refused>
        requires offsets_long { self.now.vertices + 1 ≤ length offsets.old }
        requires targets_long { self.now.edges ≤ length targets.old }
        requires marks_long { self.now.edges ≤ length marks.old }
        ensures { Unchained self.now.file.now self.now.edges (told result)
            offsets.old targets.old marks.old
            offsets.new targets.new marks.new }
    {
        lists::clear(marks, self.edges);
        let ranked = self.rank(marks);
        let number = told(&ranked);
        let whole = number == numbers::SUCCESS;
        if whole {
            self.write_targets(marks, targets);
            self.write_offsets(marks, offsets);
        }
        lists::clear(marks, self.edges);
        ranked
    }

    // The head of the vertex; for n, which is one past the last, that of the last one.
    #[tactic(auto, unfolding(crate::specs::File::head_index))]
    fn head_of(&self, vertex: usize) -> usize
        requires { vertex ≤ self.now.vertices }
        ensures { result ≡ head_index self.now.file.now (min vertex (self.now.vertices - 1)) }
    {
        word(self.file, 2 + vertex.min(self.vertices - 1))
    }

    // Follows every chain and marks each record it meets with its rank, 1 for the first, 2 for the next:
    // 5 at a record that is marked already, 6 where one is left unmarked at the end. Each index waits for
    // the one before it; so that it leads straight to its words, `records` begins at word n, and record r
    // stands at its word 2 * r. The walk reads two indices ahead, `next` and `after`, so that a chain's
    // end is known early, and the next vertex's `head` and the two after it, while this chain is walked.
    // What is read behind a chain's end or the last vertex is thrown away, so reading ahead takes no
    // branch. It is no `for`: where it goes next stands in the file.
    fn rank(&self, marks: &mut [u16]) -> Result<(), Refused>
        requires marks_long { self.now.edges ≤ length marks.old }
        requires blank { (i : ℕ) → i < self.now.edges → get_or marks.old i 0 ≡ 0 }
        ensures value { told result ≡ first (chain_refusals self.now.file.now) }
        ensures ranked { told result ≡ 0 → Ranked self.now.file.now marks.new }
        ensures marks_unchanged { drop self.now.edges marks.new ≡ drop self.now.edges marks.old }
    {
        let start = 2 * self.vertices;
        let records = &self.file[start..];
        let mut vertex = 0;
        let mut index = 0;
        let mut next = 0;
        let mut after = 0;
        let mut head = self.head_of(0);
        let mut second = next_of(records, head);
        let mut third = next_of(records, second);
        let mut count = 0;
        loop {
            if index == 0 {
                if vertex == self.vertices {
                    break;
                }
                index = head;
                next = second;
                after = third;
                vertex += 1;
                head = self.head_of(vertex);
                second = next_of(records, head);
                third = next_of(records, second);
            } else {
                if marks[index - 1] != 0 {
                    return Err(Refused::Repeated);
                }
                count += 1;
                marks[index - 1] = count as u16;
                index = next;
                next = after;
                after = next_of(records, after);
            }
        }
        if count < self.edges {
            return Err(Refused::Unreached);
        }
        Ok(())
    }

    // Writes each record's target where its rank says: no chain is followed again.
    fn write_targets(&self, marks: &[u16], targets: &mut [u16])
        requires chained { Chained self.now.file.now self.now.vertices self.now.edges }
        requires ranked { Ranked self.now.file.now marks.now }
        requires marks_long { self.now.edges ≤ length marks.now }
        requires targets_long { self.now.edges ≤ length targets.old }
        ensures { targets.new ≡ overlay (targets_of (graph_of self.now.file.now)) targets.old }
    {
        let file = self.file;
        let start = self.vertices + 2;
        for i in 0..self.edges {
            let place = element(marks, i) - 1;
            targets[place] = word16(file, start + 2 * i);
        }
    }

    // Writes the offsets from the last to the first: a vertex's row starts at the rank of its head, and
    // an empty one where the next row does.
    fn write_offsets(&self, marks: &[u16], offsets: &mut [u16])
        requires chained { Chained self.now.file.now self.now.vertices self.now.edges }
        requires ranked { Ranked self.now.file.now marks.now }
        requires marks_long { self.now.edges ≤ length marks.now }
        requires offsets_long { self.now.vertices + 1 ≤ length offsets.old }
        ensures { offsets.new ≡ overlay (offsets_of (graph_of self.now.file.now)) offsets.old }
    {
        let file = self.file;
        let mut offset = self.edges;
        offsets[self.vertices] = offset as u16;
        for vertex in (0..self.vertices).rev() {
            let head = word(file, 2 + vertex);
            if head != 0 {
                offset = element(marks, head - 1) - 1;
            }
            offsets[vertex] = offset as u16;
        }
    }
}
