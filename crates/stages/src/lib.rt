//! Work in two stages: files are read and judged, and then a file is stored and a text is printed.
#![tactic(auto)]
