// The C interface: reader, writer, search, checker and pages as functions that C can call, over
// numbers and lists alone: the answers of reader and search go into a lent list, a refusal's number too.
// Each has the contract of the call that it wraps, and no `requires`.
#![tactic(auto)]

ghost use Rattle.std.specs.Prelude.{◌≡◌, ◌<◌};
ghost use Rattle.numbers.specs.Told.{told};
ghost use Rattle.graph.specs.Answers.{read_answer_of};
ghost use Rattle.graph.specs.Read.{outcome_of_read, read_exit};
ghost use Rattle.graph.specs.Write.{outcome_of_write, write_exit};
ghost use Rattle.model.specs.Call.{outcome_of_search};
ghost use Rattle.search.specs.Answers.{answer_of as search·answer_of};
ghost use Rattle.search.specs.Promise.{search_exit, Kept};
ghost use Rattle.search.specs.Promise.{lent_lists as search·lent_lists};
ghost use Rattle.verify.specs.Check.{outcome_of_check};
ghost use Rattle.verify.specs.Promise.{lent_lists, check_exit, Judged};
ghost use Rattle.page.specs.Page.{outcome_of_page};
ghost use Rattle.page.specs.Promise.{page_exit, OnPaper};
ghost use Rattle.capi.specs.Answers.{read_answer_in, answer_in, ReadSmall, SearchSmall};

use graph::Size;
use numbers::{Refused, told};
use search::Answer;

// A number that 32 bits hold, in 32 bits. `try_from` and `unwrap` ask for the same bound.
fn narrow(x: usize) -> u32
    requires { x < 4294967296 }
    ensures { result ≡ x }
{
    x as u32
}

// The reader's answer, into the caller's list. Every answer of the reader's is small: `read_small`
// in proofs/Small.antt.
fn tell_read(read: &Result<Size, Refused>, answer: &mut [u32; 3])
    requires { ReadSmall (read_answer_of read.now) }
    ensures { read_answer_in answer.new ≡ read_answer_of read.now }
{
    *answer = match read {
        Ok(size) => [
            narrow(numbers::SUCCESS),
            narrow(size.vertices),
            narrow(size.edges),
        ],
        Err(refused) => [narrow(refused.number()), 0, 0],
    };
}

// The search's answer, into the caller's list. Every answer of the search's is small: `search_small`
// in proofs/Small.antt.
fn tell_search(found: &Result<Answer, Refused>, answer: &mut [u32; 4])
    requires { SearchSmall (search·answer_of found.now) }
    ensures { answer_in answer.new ≡ search·answer_of found.now }
{
    *answer = match found {
        Ok(run) => [
            narrow(run.ending.number()),
            narrow(run.used),
            narrow(run.effective),
            narrow(run.layer),
        ],
        Err(refused) => [narrow(refused.number()), 0, 0, 0],
    };
}

// `graph::read`; the answer's list gets number, n and m.
#[unsafe(no_mangle)]
pub extern "C" fn hopmap_read(
    file: &[u8],
    offsets: &mut [u16],
    targets: &mut [u16],
    marks: &mut [u16],
    answer: &mut [u32; 3],
) -> usize
    ensures marks_after { read_exit (read_answer_in answer.new) offsets.new targets.new marks.new
        ≡ outcome_of_read file.now offsets.old targets.old marks.old }
    ensures value { result ≡ (read_answer_in answer.new).number }
{
    let read = graph::read(file, offsets, targets, marks);
    tell_read(&read, answer);
    told(&read)
}

// `writer::write`.
#[unsafe(no_mangle)]
pub extern "C" fn hopmap_write(offsets: &[u16], targets: &[u16], file: &mut [u8]) -> usize
    ensures { write_exit result file.new
        ≡ outcome_of_write offsets.now targets.now file.old }
{
    told(&writer::write(offsets, targets, file))
}

// `search::search`; the answer's list gets number, events used, effective events and d.
#[unsafe(no_mangle)]
pub extern "C" fn hopmap_search(
    file: &[u8],
    source: usize,
    workers: usize,
    schedule: &[u8],
    offsets: &mut [u16],
    targets: &mut [u16],
    marks: &mut [u16],
    distances: &mut [u16],
    parents: &mut [u16],
    census: &mut [u16],
    left: &mut [u16],
    right: &mut [u16],
    values: &mut [u16],
    answer: &mut [u32; 4],
) -> usize
    ensures values_after { search_exit (answer_in answer.new)
        (search·lent_lists offsets.new targets.new marks.new distances.new
        parents.new census.new left.new right.new values.new)
        ≡ outcome_of_search file.now source workers schedule.now
        (search·lent_lists offsets.old targets.old marks.old distances.old
        parents.old census.old left.old right.old values.old) }
    ensures kept { Kept file.now source workers schedule.now
        (search·lent_lists offsets.old targets.old marks.old distances.old
        parents.old census.old left.old right.old values.old)
        (answer_in answer.new)
        (search·lent_lists offsets.new targets.new marks.new distances.new
        parents.new census.new left.new right.new values.new) }
    ensures value { result ≡ (answer_in answer.new).number }
{
    let found = search::search(
        file, source, workers, schedule, offsets, targets, marks, distances, parents, census, left,
        right, values,
    );
    tell_search(&found, answer);
    search::number(&found)
}

// `verify::check`.
#[unsafe(no_mangle)]
pub extern "C" fn hopmap_check(
    file: &[u8],
    source: usize,
    distances: &[u16],
    parents: &[u16],
    offsets: &mut [u16],
    targets: &mut [u16],
    marks: &mut [u16],
) -> usize
    ensures marks_after { check_exit result (lent_lists offsets.new targets.new marks.new)
        ≡ outcome_of_check file.now source distances.now parents.now
        (lent_lists offsets.old targets.old marks.old) }
    ensures judged { Judged file.now source distances.now parents.now
        (lent_lists offsets.old targets.old marks.old)
        result }
{
    told(&verify::check(file, source, distances, parents, offsets, targets, marks))
}

// `page::page`.
#[unsafe(no_mangle)]
pub extern "C" fn hopmap_page(
    file: &[u8],
    source: usize,
    distances: &[u16],
    parents: &[u16],
    offsets: &mut [u16],
    targets: &mut [u16],
    marks: &mut [u16],
    bytes: &mut [u8],
) -> usize
    ensures bytes_after { page_exit result (lent_lists offsets.new targets.new marks.new) bytes.new
        ≡ outcome_of_page file.now source distances.now parents.now
        (lent_lists offsets.old targets.old marks.old)
        bytes.old }
    ensures on_paper { OnPaper file.now source distances.now parents.now result bytes.new }
{
    told(&page::page(
        file, source, distances, parents, offsets, targets, marks, bytes,
    ))
}
