//! The worked rows of the commands: files and words, with the status, the complaint and what is put or said. It is all
//! tests.
#![tactic(auto)]

#[cfg(test)]
mod audit_tests;
#[cfg(test)]
mod billing_tests;
#[cfg(test)]
mod command_tests;
#[cfg(test)]
mod file_tests;
#[cfg(test)]
mod fixtures;
#[cfg(test)]
mod inspect_tests;
#[cfg(test)]
mod load_tests;
#[cfg(test)]
mod parts_tests;
#[cfg(test)]
mod refusal_tests;
#[cfg(test)]
mod register_tests;
#[cfg(test)]
mod resume_tests;
#[cfg(test)]
mod ring_tests;
#[cfg(test)]
mod role_tests;
#[cfg(test)]
mod run_tests;
#[cfg(test)]
mod twin_tests;
