// What the runs of the checker and of the pages share, without a call of either: what is asked of a
// call and what it must leave, drawn graphs, right and wrong results of them, and case A of document
// 01 with faults.
//
// Every read and write of a list is guarded, so that no function here requires anything.
#![tactic(auto)]

pub mod graphs;
pub mod plans;
pub mod queries;
pub mod results;
pub mod tables;
