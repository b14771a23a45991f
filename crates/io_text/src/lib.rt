//! Whole inputs read, and outputs written, through devices that know whether they failed; and texts that grow at their ends.
#![tactic(auto)]

mod copies;
mod device;
mod fault;
mod input;
mod output;
mod text;

pub use device::{Device, DeviceFailed};
pub use fault::DeviceFault;
pub use input::{MAX_INPUT, read_input};
pub use output::write_output;
pub use text::{Numeral, ShortText, Text};
