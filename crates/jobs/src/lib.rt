// One job by its numbers: the age, the time left, the signed slack, which decides a miss and orders the jobs under least slack, the key of
// each policy and what settles equal keys, and the place in the order.
#![tactic(auto)]

mod job;
mod place;

pub use job::{goes_before, job_age, job_key, keeps_running, late_job, slack_of};
pub use place::{base_of, gap_mask, moved, place_of, work_mask};
