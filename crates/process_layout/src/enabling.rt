//! The expressions of a program.

use mp_base::List;
use process_plan::Enable;
use rtl_form::RtlExpr;

/// The copies of a program's expressions, the expressions that tell when its forms are active, and for each process
/// those that tell at which place it is, place 0 first.
#[derive(Drop)]
pub struct Enabling {
    pub exprs: List<RtlExpr>,
    pub enables: List<Option<Enable>>,
    pub places: List<List<u32>>,
}
