//! Laws of ordered settings, for the proofs of crates above. A call of one does nothing.

ghost use Rattle.settle_laws.specs.Laws.{LooksTell, RedrivenTells, SolutionsSettle, ToldSolves};

use switch_net::laws::nodes_are_given;

/// In an ordered setting each solution is the settled one. Where nothing waits the values are a solution; what
/// waits is told after other drivers, and after a look at a cluster.
pub fn ordered_settings_settle()
    ensures settle { SolutionsSettle }
    ensures solve { ToldSolves }
    ensures redriven { RedrivenTells }
    ensures look { LooksTell }
{
    nodes_are_given();
}
