//! Slices of a data path laid out in bands: what it means that a fabric is made of them, and that it draws the path.
#![tactic(auto)]
