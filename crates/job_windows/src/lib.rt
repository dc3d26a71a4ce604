// A job of any length: its input is read window by window, and each record is run as soon as no record could reach past the window.
#![tactic(auto)]

pub mod input;
pub mod lines;
pub mod window;
