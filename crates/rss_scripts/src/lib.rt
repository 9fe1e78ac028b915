//! Commands over any device, by their words: what a test or a tour needs around `run`.
#![tactic(auto)]

mod commands;

pub use commands::{
    format_device, run_in_frames, run_lines, run_script, run_words, without_moments,
};
