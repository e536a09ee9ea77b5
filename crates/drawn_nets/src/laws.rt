//! Laws of networks that draw nets.

ghost use Rattle.drawn_nets.specs.Circuits.{CircuitsAreDrawn};
ghost use Rattle.drawn_nets.specs.Law.{SettledValuesAreDrawn, SolutionsAreDrawn};

use switch_net::laws::nodes_are_given;

/// In a drawing, joined nets included, what solves the equations of the network solves those of the nets.
pub fn solutions_are_drawn()
    ensures { SolutionsAreDrawn }
{
    nodes_are_given();
}

/// What a circuit shows from any charge, clock by clock, the nets that it draws show too, in a trace of solutions.
pub fn circuits_are_drawn()
    ensures { CircuitsAreDrawn }
{
    solutions_are_drawn();
}

/// In a drawing of finitely many nets, settled values of the network are settled values of the nets, X included.
pub fn settled_values_are_drawn()
    ensures { SettledValuesAreDrawn }
{
    nodes_are_given();
}
