//! What lists of runs say, for programs of cases: the files that they set, the words that are run over these, and which
//! calls fail.
#![tactic(auto)]

mod exit;
mod failing;
mod files;
mod step;
mod store;

pub use exit::{Exit, exit_of};
pub use failing::{Failing, NONE, Side};
pub use files::{Content, File, quiet_depot_of, set, text_of};
pub use step::{Step, step_of, words_of};
pub use store::{Output, Store};
