// What the test programs share: a count of cases, pseudo-random numbers, lists with known contents,
// words of a file, and a plain way from the edges of a graph to its rows and to its file.
//
// Every read and write of a list is guarded, so that no function here requires anything, but `all` that
// its cases end and its closure may be called. Vertices, edges and records are numbers of 16 bits; places
// in a file and lengths are of type `usize`.
#![tactic(auto)]

pub mod contents;
pub mod files;
pub mod group;
pub mod random;
pub mod reading;
pub mod sample;
pub mod words;
