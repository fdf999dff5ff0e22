// What the runs of pages go by: the layout of request 2.1, worked out for each byte from its place
// alone, apart from the library's way of printing one line behind the other; and a call's page list
// compared with it.
//
// Every read of a list is guarded, so that no function here requires anything.
#![tactic(auto)]

ghost use Rattle.std.specs.Prelude.{◌<◌};

use testkit::files::is_filled;
use testkit::words::at_place;

// What a page list holds before a call, at every place. No page has this byte.
pub const BLANK: u8 = 255;

const LINE_FEED: u8 = b'\n';

const SPACE: u8 = b' ';

const DASH: u8 = b'-';

const ZERO: u8 = b'0';

// An unset distance or parent.
const UNSET: u16 = 65535;

// How many bytes a line has, how many lines a full page, how many vertices.
const LINE: usize = 21;

// The column of a line's last figure.
const LAST: usize = 19;

const PAGE_LINES: usize = 51;

const PAGE_VERTICES: usize = 50;

const TITLE: [u8; 10] = *b"HOPS page ";

// How many pages so many vertices begin.
fn page_count(vertices: u16) -> usize
    ensures { result < 65536 }
{
    usize::from(vertices).div_ceil(PAGE_VERTICES)
}

// How many bytes the pages of so many vertices have: a line for each vertex, and one for each page.
pub fn need(vertices: u16) -> usize {
    LINE * (usize::from(vertices) + page_count(vertices))
}

// A number without its last digits. No number on a page has more than five.
fn without(number: usize, digits: usize) -> usize {
    match digits {
        0 => number,
        1 => number / 10,
        2 => number / 100,
        3 => number / 1000,
        4 => number / 10000,
        _ => 0,
    }
}

// What a right-aligned number has at a column, which is counted from the right, from 0 on: a digit,
// or a blank in front of them.
fn figure(number: usize, column: usize) -> u8 {
    let front = without(number, column);
    if (front == 0) & (column != 0) {
        return SPACE;
    }
    ZERO + (front % 10) as u8
}

// The same of a distance or a parent.
fn label(number: u16, column: usize) -> u8 {
    if number != UNSET {
        return figure(usize::from(number), column);
    }
    if column == 0 { DASH } else { SPACE }
}

// What a page's line one has at a column, counted from 0.
fn head(number: usize, column: usize) -> u8 {
    TITLE
        .get(column)
        .copied()
        .unwrap_or_else(|| figure(number, LAST.wrapping_sub(column)))
}

// What a vertex's line has at a column, counted from 0.
fn entry(vertex: usize, distance: u16, parent: u16, column: usize) -> u8 {
    match column {
        0..=4 => figure(vertex, 4 - column),
        5 | 13 => SPACE,
        6..=12 => label(distance, 12 - column),
        _ => label(parent, LAST.wrapping_sub(column)),
    }
}

// What the pages have at a place.
fn byte_at(place: usize, distances: &[u16], parents: &[u16]) -> u8 {
    let line = place / LINE;
    let column = place % LINE;
    if column == LINE - 1 {
        return LINE_FEED;
    }
    let page = line / PAGE_LINES;
    let row = line % PAGE_LINES;
    if row == 0 {
        return head(page + 1, column);
    }
    let vertex = page * PAGE_VERTICES + (row - 1);
    entry(
        vertex,
        at_place(distances, vertex),
        at_place(parents, vertex),
        column,
    )
}

// Whether the bytes are the pages' first ones.
fn is_laid_out(bytes: &[u8], distances: &[u16], parents: &[u16]) -> bool {
    let mut places = bytes.iter().enumerate();
    places.all(|(i, byte)| *byte == byte_at(i, distances, parents))
}

// Whether the pages of so many vertices stand at the front of a list that held `BLANK`, and the rest of
// it is as it was.
pub fn is_printed(list: &[u8], vertices: u16, distances: &[u16], parents: &[u16]) -> bool {
    let count = need(vertices);
    let pages = list.get(..count);
    let printed = pages.is_some_and(|bytes| is_laid_out(bytes, distances, parents));
    printed & is_filled(list, count, BLANK)
}
