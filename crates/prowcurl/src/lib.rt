// The C interface: each call under its name in prowcurl.h, with the promise of the function that does the work.
#![tactic(auto)]

pub mod areas;
pub mod combining;
pub mod deliveries;
pub mod dragged;
pub mod edits;
pub mod files;
pub mod findings;
pub mod interface;
pub mod lists;
pub mod questions;
pub mod squares;
pub mod strings;
pub mod waivers;
pub mod windows;
