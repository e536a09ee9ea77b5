//! Which nets stand for which bits.

use bit_gates::Rails;
use mp_base::List;
use nor_net::NetId;
use task_schedule::Task;

/// The nets of cells, expressions and input pads that are bits.
///
/// `tasks` are all expressions and driven cells, words too, each after what it reads. `start` nets stand before the
/// first task, and `ends` tells for each task how many stand when it is done.
#[derive(Drop)]
pub struct Names {
    pub cells: List<Option<NetId>>,
    pub exprs: List<Option<NetId>>,
    pub inputs: List<Option<NetId>>,
    pub tasks: List<Task>,
    pub start: u32,
    pub ends: List<u32>,
}

/// The bits of cells and expressions that have nets so far, by their indices.
#[derive(Drop)]
pub struct Bits {
    pub cells: List<Option<Rails>>,
    pub exprs: List<Option<Rails>>,
}
