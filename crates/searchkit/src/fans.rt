// Fans: from the source an edge to each vertex of a row, and from each of these an edge to the last
// vertex. There are as many workers as vertices in the row: they share the row out, all look at the
// last vertex while it is unset, and all mark it. The fan of two is case A's graph.
use crate::base::SCHEDULE;
use crate::bench::is_answer;
use crate::counts::times;
use crate::events::{CLOSE, Kind, event};
use crate::requests::{Report, Request, needs};
use testkit::files;
use testkit::sample::{after, encode_in_order, file_length};
use testkit::words::{at, put};

// Each fan with each length of its schedule; the longest go on past the finish.
pub const CASES: u16 = 400;

const LENGTHS: u16 = 100;

// Case A, with its own schedule, then three fans: how many vertices the row has.
const WIDTHS: [u16; 4] = [2, 2, 4, 8];

// A work of worker 0.
const WORK: u8 = 0;

// The width of a case's fan.
fn width_of(case: u16) -> u16 {
    at(&WIDTHS, case / LENGTHS)
}

// So many for each vertex of the row, and some more.
fn each(width: u16, count: u16, more: u16) -> u16 {
    (times(count, usize::from(width)) % 1000) as u16 + more % 10
}

// The edges, and the rows up to the last vertex of the row.
fn make_edges(width: u16, sources: &mut [u16], row_targets: &mut [u16], rows: &mut [u16]) {
    for edge in 0..width {
        let vertex = after(edge);
        let second = width.wrapping_add(edge);
        put(row_targets, edge, vertex);
        put(rows, vertex, second);
        put(sources, second, vertex);
        put(row_targets, second, after(width));
    }
}

// The graph of a case and its file, into lists of zeros. `order` is working room.
pub fn make_graph(
    case: u16,
    file: &mut [u8],
    sources: &mut [u16],
    row_targets: &mut [u16],
    rows: &mut [u16],
    order: &mut [u16],
) {
    let width = width_of(case);
    let vertices = each(width, 1, 2);
    let edges = each(width, 2, 0);
    make_edges(width, sources, row_targets, rows);
    put(rows, after(width), edges);
    put(rows, vertices, edges);
    encode_in_order(file, vertices, edges, sources, row_targets, order);
}

// The worker that gives half of what it holds to this one: worker 0 to 1, then 0 and 1 to 2 and 3, then
// all four to 4 and on.
fn giver(worker: u16) -> u16 {
    if worker < 2 {
        return 0;
    }
    if worker < 4 { worker - 2 } else { worker - 4 }
}

// The worker whose turn it is; worker 0 where there is none.
fn turn(width: u16, place: u16) -> u8 {
    let worker = place.wrapping_sub(1).checked_rem(width).unwrap_or(0);
    event(Kind::Work, worker, 0)
}

// A close ends the source's layer, the row's, and the last vertex's.
fn is_close(width: u16, place: u16) -> bool {
    let first = place == each(width, 4, 1);
    first | (place == each(width, 10, 1)) | (place == each(width, 11, 2))
}

// The byte at a place: worker 0 takes the source, and has four moves for each vertex of the row; the
// row is shared out; five times all workers take their turn, who take, look, mark, name and stow;
// worker 0 takes the last vertex as often as it was stowed.
fn byte(width: u16, place: u16) -> u8 {
    if is_close(width, place) {
        return CLOSE;
    }
    let row = each(width, 4, 1);
    if place < row {
        return WORK;
    }
    if place <= each(width, 5, 0) {
        let worker = place - row;
        return event(Kind::Split, worker, giver(worker));
    }
    if place <= each(width, 10, 0) {
        return turn(width, place);
    }
    WORK
}

// The bytes of a fan's schedule.
fn make_bytes(width: u16, schedule: &mut [u8]) {
    for (x, place) in schedule.iter_mut().zip(0..LENGTHS) {
        *x = byte(width, place);
    }
}

// The whole schedule of a case.
pub fn make_schedule(case: u16, schedule: &mut [u8]) {
    make_bytes(width_of(case), schedule);
    if case < LENGTHS {
        files::copy(&SCHEDULE, schedule, 0);
    }
}

// The request of a case. The lists are at their need, or up to three places longer.
pub fn request_of(case: u16) -> Request {
    let workers = width_of(case);
    let vertices = each(workers, 1, 2);
    let edges = each(workers, 2, 0);
    Request {
        source: 0,
        workers,
        vertices,
        edges,
        file: file_length(vertices, edges),
        schedule: usize::from(case % LENGTHS),
        lengths: needs(vertices, edges, workers, case % 4),
    }
}

// How many events finish a fan's search. All are effective.
fn events(width: u16) -> u16 {
    each(width, 11, 3)
}

// The number of a case.
pub fn number(case: u16) -> u16 {
    if case % LENGTHS < events(width_of(case)) {
        21
    } else {
        0
    }
}

// The layer after so many events.
fn layer(width: u16, used: u16) -> usize {
    if used < each(width, 4, 2) {
        return 0;
    }
    if used < each(width, 10, 2) { 1 } else { 2 }
}

// The first four counts after so many events, as digits: the source; one more vertex of the row with
// event 3 and with each fourth after it; the last vertex once, from its first mark on, whoever marks it
// again.
fn counts(width: u16, used: u16) -> u64 {
    let row = (after(used) / 4).min(width) % 10;
    let last: u16 = if used < each(width, 7, 2) { 0 } else { 1 };
    1000 + u64::from(row) * 100 + u64::from(last % 10) * 10
}

// Whether a case answered what it must, and the counts are as they must be.
pub fn is_right(case: u16, report: Report) -> bool {
    let width = width_of(case);
    let used = (case % LENGTHS).min(events(width));
    let answered = is_answer(report.seen, number(case), used, layer(width, used));
    report.right & answered & (report.digest % 10000 == counts(width, used))
}
