//! Worked rows and outside vectors of what comes in and goes out: plans, keys, lanes, the texts of transcripts and reports, files
//! and the desk. They are tests alone, in modules that are named after the crates below; those of the book and of what feeds it
//! are in `book_rows`.
//! They stand here because a crate that has tests is proved twice, so those crates have none of their own.
#![tactic(auto)]

#[cfg(test)]
mod cut_resume_rows;
#[cfg(test)]
mod desk_outside_pour_rows;
#[cfg(test)]
mod desk_outside_rows;
#[cfg(test)]
mod fixtures;
#[cfg(test)]
mod group_plan_rows;
#[cfg(test)]
mod link_lanes_rows;
#[cfg(test)]
mod pair_keys_rows;
#[cfg(test)]
mod plan_files_plan_rows;
#[cfg(test)]
mod plan_files_readings_rows;
#[cfg(test)]
mod plan_files_registers_rows;
#[cfg(test)]
mod read_ahead_rows;
#[cfg(test)]
mod run_course_rows;
#[cfg(test)]
mod totals_report_rows;
#[cfg(test)]
mod transcript_log_rows;
#[cfg(test)]
mod transcript_text_rows;
