// What the runs of the search and of the checker share, without a call of either: requests, drawn
// schedules, a plain queue search, comparisons of lists, labels and counts, and the tables of cases.
//
// Every read and write of a list is guarded, so that no function here requires anything.
#![tactic(auto)]

pub mod base;
pub mod beginnings;
pub mod bench;
pub mod compare;
pub mod counts;
pub mod events;
pub mod fans;
pub mod faults;
pub mod histogram;
pub mod labels;
pub mod paths;
pub mod plans;
pub mod queue;
pub mod random_plans;
pub mod refusals;
pub mod requests;
pub mod short_lists;
pub mod sizes;
