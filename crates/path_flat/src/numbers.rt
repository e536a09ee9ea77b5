//! The numbers that the nets of a path have in its flat net.

ghost use Rattle.std.specs.Prelude.{◌≡◌, ◌≢◌, ◌<◌, ℕ, IfOk, OnOk};
ghost use Rattle.nor_net.specs.Elements.{Spot};
ghost use Rattle.path_flat.specs.Numbers.{HasRowMore, HasShape, number_of, row_size, spot_of};

use crate::places::Place;
use mp_base::{List, NoMemory};
use nor_net::NetId;
use std::alloc::{AllocError, Global};
use std::marker::Model;

/// A number for each net, by its band and its number there.
#[derive(Drop)]
pub(crate) struct Numbers {
    rows: Vec<List<NetId>>,
}

impl Model for Numbers {
    ghost use Rattle.std.specs.Prelude.{List};
    ghost use Rattle.nor_net.specs.declared.net.NetId.{NetId};

    ghost Value = { List (List NetId) };

    ghost view = { λ s. s.rows.items };
}

// Adds a row of as many zeros.
fn push_zeros(alloc: Global, count: u32, rows: &mut List<List<NetId>>) -> Result<(), AllocError>
    ensures { OnOk result (HasRowMore count rows.old rows.new) }
{
    let row = List::from_vec(vec![in alloc; NetId(0); count as usize]?);
    rows.push(row)
}

impl Numbers {
    /// Room for the nets of the control and of this many slices.
    pub fn new(alloc: Global, width: u8, control: u32, slices: u32) -> Result<Numbers, NoMemory>
        ensures { IfOk result (HasShape width control slices) }
    {
        let mut rows = List::new(alloc);
        push_zeros(alloc, control, &mut rows)?;
        for _slice in 0..width {
            push_zeros(alloc, slices, &mut rows)?;
        }
        Ok(Numbers {
            rows: rows.into_vec(),
        })
    }

    /// The number of a net, 0 where none was told.
    pub fn at(&self, band: u32, net: u32) -> NetId
        ensures { result ≡ number_of self.now (record { band = band; net = net }) }
    {
        match self.rows.get(band as usize) {
            Some(row) => match row.as_slice().get(net as usize) {
                Some(id) => *id,
                None => NetId(0),
            },
            None => NetId(0),
        }
    }

    /// Tells the number of a net.
    pub fn set(&mut self, place: Place, id: NetId)
        requires inside { place.net < row_size self.old place.band }
        ensures told { number_of self.new (spot_of place) ≡ id }
        ensures others { (n : Spot) → n ≢ spot_of place → number_of self.new n ≡ number_of self.old n }
        ensures shape { (band : ℕ) → row_size self.new band ≡ row_size self.old band }
    {
        let row = &mut self.rows[place.band as usize];
        row.set(place.net, id);
    }
}
