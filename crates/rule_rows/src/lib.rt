//! The lambda rules of spacing and of gates, at their least squares.
#![tactic(auto)]

mod channels;
mod closed;
mod copies;
mod crosses;
mod firsts;
mod gates;
mod leads;
mod legs;
mod side;
mod stretches;
mod tight;
mod unrelated;

pub use gates::first_open_gate;
pub use tight::first_tight;
pub use unrelated::first_unrelated;
