//! A page that steps through the rooms of one file, or of two next to each other, in a browser.
#![tactic(auto)]

mod pages;

pub use pages::{faults_of, faults_of_both, page, page_of_both, page_of_kept, page_of_open};
