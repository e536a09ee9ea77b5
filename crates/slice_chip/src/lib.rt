//! The chip of a data path as a fabric: its control in band 0, and a slice in each band above. Laws: what is added fits
//! together, and it draws the path.
#![tactic(auto)]

pub mod laws;
