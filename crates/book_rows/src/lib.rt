//! Worked rows of the book, of what feeds it and of what is made of it: sets, frames, rounds, meters, mask words, the link,
//! workers, whole runs, the report of a book, the worlds of a twin, and masks between neighbours. They are tests alone, in modules that are named after the
//! crates below; those of plans, lanes, texts and files are in `file_rows`.
//! They stand here because a crate that has tests is proved twice, so those crates have none of their own.
#![tactic(auto)]

#[cfg(test)]
mod blind_core_rows;
#[cfg(test)]
mod chacha_lanes_rows;
#[cfg(test)]
mod collector_workers_rows;
#[cfg(test)]
mod fixtures;
#[cfg(test)]
mod group_book_rows;
#[cfg(test)]
mod ideal_masks_rows;
#[cfg(test)]
mod lossy_link_rows;
#[cfg(test)]
mod meter_core_rows;
#[cfg(test)]
mod meter_frames_rows;
#[cfg(test)]
mod missing_round_rows;
#[cfg(test)]
mod pooled_twin_rows;
#[cfg(test)]
mod register_words_rows;
#[cfg(test)]
mod round_machine_rows;
#[cfg(test)]
mod shared_book_rows;
#[cfg(test)]
mod sparse_masks_rows;
#[cfg(test)]
mod tick_run_rows;
#[cfg(test)]
mod totals_report_book_rows;
#[cfg(test)]
mod transcripts;
#[cfg(test)]
mod twin_worlds_rows;
#[cfg(test)]
mod twin_worlds_table_rows;
