//! A data path in the making.

ghost use Rattle.std.specs.Prelude.{◌≡◌, ◌≤◌, None, IfOk, OnOk, length, replicate};
ghost use Rattle.datapath_making.specs.Marking.{last_mark};
ghost use Rattle.datapath_making.specs.Steps.{begun, marked};
ghost use Rattle.datapath_making.specs.WellMade.{IsWellMade};

use control_nor::Names;
use mp_base::{List, NoMemory};
use nor_net::{Net, NetId};
use organelles::SliceNet;
use path_form::{Cast, Lift};
use path_order::Mark;
use rtl_form::Rtl;
use std::alloc::Global;

/// A guard in each slice: the net of its cast, and the negation of that.
#[derive(Clone, Copy, PartialEq, Eq, Debug)]
pub struct Guard {
    pub cast: NetId,
    pub off: NetId,
}

/// The control, whose nets are all made, and what stands in the slices so far.
///
/// A word has a net with one number in each slice. `cell_words`, `words` and `pads` tell which, for cells, expressions
/// and input pads. `guards` has those guards that were cast, by their expressions. `reset` is the net of the control
/// that stands for reset, and `clear` its cast. The order of the nets will go from mark to mark.
#[derive(Drop)]
pub struct Making {
    pub width: u8,
    pub control: Net,
    pub names: Names,
    pub reset: Option<NetId>,
    pub slices: SliceNet,
    pub casts: List<Cast>,
    pub lifts: List<Lift>,
    pub cell_words: List<Option<NetId>>,
    pub words: List<Option<NetId>>,
    pub pads: List<Option<NetId>>,
    pub guards: List<Option<Guard>>,
    pub clear: Option<NetId>,
    pub marks: List<Mark>,
}

// As many entries without a net.
fn no_nets(alloc: Global, count: usize) -> Result<List<Option<NetId>>, NoMemory>
    ensures { IfOk result (λ xs. xs ≡ replicate count None) }
{
    Ok(List::from_vec(vec![in alloc; None; count]?))
}

// The same for guards.
fn no_guards(alloc: Global, count: usize) -> Result<List<Option<Guard>>, NoMemory>
    ensures { IfOk result (λ xs. xs ≡ replicate count None) }
{
    Ok(List::from_vec(vec![in alloc; None; count]?))
}

impl Making {
    /// Nothing in the slices yet, for transfers whose bits have become this control.
    ///
    /// # Errors
    ///
    /// `NoMemory`.
    pub fn new(
        alloc: Global,
        rtl: &Rtl,
        control: Net,
        names: Names,
        reset: Option<NetId>,
    ) -> Result<Making, NoMemory>
        requires exprs { length names.exprs ≡ length rtl.now.exprs }
        ensures begun { IfOk result (λ m. m ≡ begun rtl.now control names reset) }
        ensures made { IfOk result IsWellMade }
    {
        Ok(Making {
            width: rtl.width,
            control,
            names,
            reset,
            slices: SliceNet {
                net: Net::new(alloc),
                chains: List::new(alloc),
                programs: List::new(alloc),
            },
            casts: List::new(alloc),
            lifts: List::new(alloc),
            cell_words: no_nets(alloc, rtl.cells.len())?,
            words: no_nets(alloc, rtl.exprs.len())?,
            pads: no_nets(alloc, rtl.pads.inputs.len())?,
            guards: no_guards(alloc, rtl.exprs.len())?,
            clear: None,
            marks: List::new(alloc),
        })
    }

    /// Sets a mark at what stands in the slices, and at this many nets of the control.
    ///
    /// # Errors
    ///
    /// `NoMemory`.
    pub fn mark(&mut self, control: u32) -> Result<(), NoMemory>
        requires made { IsWellMade self.old }
        requires rises { (last_mark self.old).control ≤ control }
        requires within { control ≤ length self.old.control }
        ensures marked { OnOk result (self.new ≡ marked control self.old) }
        ensures made { OnOk result (IsWellMade self.new) }
    {
        let slices = self.slices.net.len();
        self.marks.push(Mark { slices, control })?;
        Ok(())
    }
}
