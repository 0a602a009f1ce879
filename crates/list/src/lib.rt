// What a list is: its settings, the check of a list, what every call that asks one does first, and where a block stands among its records.
#![tactic(auto)]

pub mod acceptance;
pub mod accepted_list;
pub mod check;
pub mod feature;
pub mod search;
pub mod settings;
pub mod standing;

pub use acceptance::accept;
