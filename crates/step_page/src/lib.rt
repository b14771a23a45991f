//! A page that steps through the rooms of one file, or of two next to each other, in a browser.
#![tactic(auto)]

mod page;
mod parts;

pub use page::{FileKind, begin_page, end_page, put_file, put_open};
