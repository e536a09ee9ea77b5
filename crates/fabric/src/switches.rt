//! The network that the segments, lines and marks of a fabric mean.

ghost use Rattle.std.specs.Prelude.{ℕ, ◌⊎◌, ◌≡◌, [], false, length, filter, IfOk, MatchOption};
ghost use Rattle.std.specs.List.{AllZip};
ghost use Rattle.switch_net.specs.OneNode.{AreAmong};
ghost use Rattle.tile_cells.specs.declared.tile.Tile.TheVariants.{Tran, PullUp};
ghost use Rattle.fabric.specs.Plan.{IsMark, SegmentAt, LineAt};
ghost use Rattle.fabric.specs.Switches.{Net, LineOf, SegmentOf, IsTapped, IsTapOn, IsSwitch, AreChannels, AreSwitches};
ghost use Rattle.fabric.specs.Switches.Net.{ground, power};
ghost use Rattle.fabric.specs.Numbers.{AreNetNumbers, is_tap, IsNumbered, IsTapPair, IsUntagged, net_count, number_of};
ghost use Rattle.fabric.specs.Places.{ArePlaces};

use crate::fabric::Fabric;
use crate::numbers::{Classes, number, two};
use crate::places::{Places, column_key, last_up_to, places_of, row_key};
use crate::thing::{Mark, Side};
use mp_base::{List, NoMemory};
use std::alloc::Global;
use switch_net::{Channel, ChannelKind, Network};
use tile_cells::Tile;
use union_find::{Pair, leasts};

impl Fabric {
    // The number of the line on that side of a mark.
    fn line_number(&self, places: &Places, side: Side, m: &Mark) -> u32
        requires places { ArePlaces self.now places.now }
        requires there { LineAt self.now side m.now.band m.now.column }
        ensures { (n : Net) × LineOf self.now m.now side n × IsNumbered self.now result n }
    {
        self.conditions();
        let key = column_key(side, m.column, m.band);
        let line = last_up_to(places.lines.as_slice(), key);
        self.segments.len() as u32 + line
    }

    // The number of the segment that crosses a mark.
    fn segment_number(&self, places: &Places, m: &Mark) -> u32
        requires places { ArePlaces self.now places.now }
        requires there { SegmentAt self.now m.now.band m.now.row m.now.column }
        ensures { (n : Net) × SegmentOf self.now m.now n × IsNumbered self.now result n }
    {
        self.conditions();
        let key = row_key(self, places.bases.as_slice(), m.band, m.row, m.column);
        last_up_to(places.segments.as_slice(), key)
    }

    fn ground_number(&self) -> u32
        ensures { IsNumbered self.now result ground }
    {
        self.segments.len() as u32 + self.lines.len() as u32
    }

    fn power_number(&self) -> u32
        ensures { IsNumbered self.now result power }
    {
        self.segments.len() as u32 + self.lines.len() as u32 + 1
    }

    // The number of what a tap joins its line to.
    fn tapped_number(&self, places: &Places, m: &Mark) -> u32
        requires places { ArePlaces self.now places.now }
        requires there { (m.now.row ≡ 0) ⊎ SegmentAt self.now m.now.band m.now.row m.now.column }
        ensures { (n : Net) × IsTapped self.now m.now n × IsNumbered self.now result n }
    {
        if m.row == 0 {
            self.ground_number()
        } else {
            self.segment_number(places, m)
        }
    }

    // The numbers of the two nets that a tap joins.
    fn tap(&self, places: &Places, side: Side, m: &Mark) -> Pair
        requires places { ArePlaces self.now places.now }
        requires there { IsMark self.now m.now }
        requires tile { IsTapOn side m.now.tile }
        ensures { IsTapPair self.now m.now result }
    {
        let a = self.line_number(places, side, m);
        let b = self.tapped_number(places, m);
        Pair { a, b }
    }

    // The channel of a transistor.
    fn transistor(
        &self,
        alloc: Global,
        places: &Places,
        m: &Mark,
        numbers: &[u32],
    ) -> Result<Channel, NoMemory>
        requires places { ArePlaces self.now places.now }
        requires there { IsMark self.now m.now }
        requires tile { m.now.tile ≡ Tran }
        requires numbers { length numbers.now ≡ net_count self.now }
        ensures { IfOk result (IsSwitch self.now (number_of self.now numbers.now) m.now) }
    {
        self.conditions();
        let gate = numbers[self.segment_number(places, m) as usize];
        let left = numbers[self.line_number(places, Side::L, m) as usize];
        let right = numbers[self.line_number(places, Side::R, m) as usize];
        let ends = two(alloc, left, right)?;
        Ok(Channel {
            gate,
            ends,
            kind: ChannelKind::Enhancement,
        })
    }

    // The channel of a pull-up.
    fn pull_up(
        &self,
        alloc: Global,
        places: &Places,
        m: &Mark,
        numbers: &[u32],
    ) -> Result<Channel, NoMemory>
        requires places { ArePlaces self.now places.now }
        requires there { IsMark self.now m.now }
        requires tile { m.now.tile ≡ PullUp }
        requires numbers { length numbers.now ≡ net_count self.now }
        ensures { IfOk result (IsSwitch self.now (number_of self.now numbers.now) m.now) }
    {
        self.conditions();
        let own = numbers[self.line_number(places, Side::L, m) as usize];
        let power = numbers[self.power_number() as usize];
        let ends = two(alloc, own, power)?;
        Ok(Channel {
            gate: own,
            ends,
            kind: ChannelKind::Depletion,
        })
    }

    // The numbers of the two nets that a mark joins, if it is a tap.
    fn joined(&self, places: &Places, m: &Mark) -> Option<Pair>
        requires places { ArePlaces self.now places.now }
        requires there { IsMark self.now m.now }
        ensures { MatchOption result (is_tap m.now ≡ false) (IsTapPair self.now m.now) }
    {
        match m.tile {
            Tile::TapL => Some(self.tap(places, Side::L, m)),
            Tile::TapR => Some(self.tap(places, Side::R, m)),
            Tile::Tran | Tile::PullUp | Tile::Under => None,
        }
    }

    // The pairs of nets that taps join.
    fn pairs(&self, alloc: Global, places: &Places) -> Result<List<Pair>, NoMemory>
        requires { ArePlaces self.now places.now }
        ensures { IfOk result (AllZip (IsTapPair self.now) (filter is_tap self.now.marks)) }
    {
        let mut pairs = List::new(alloc);
        for m in self.marks.as_slice() {
            if let Some(pair) = self.joined(places, m) {
                pairs.push(pair)?;
            }
        }
        Ok(pairs)
    }

    // The channels, where nets have these numbers.
    fn channels(
        &self,
        alloc: Global,
        places: &Places,
        numbers: &[u32],
    ) -> Result<List<Channel>, NoMemory>
        requires places { ArePlaces self.now places.now }
        requires numbers { length numbers.now ≡ net_count self.now }
        ensures { IfOk result (λ v. AreChannels self.now (number_of self.now numbers.now) v) }
    {
        let mut channels = List::new(alloc);
        for m in self.marks.as_slice() {
            match m.tile {
                Tile::Tran => channels.push(self.transistor(alloc, places, m, numbers)?)?,
                Tile::PullUp => channels.push(self.pull_up(alloc, places, m, numbers)?)?,
                Tile::TapL | Tile::TapR | Tile::Under => {}
            }
        }
        Ok(channels)
    }

    // The numbers of the nets, where those that taps join have one.
    fn classes(&self, alloc: Global, places: &Places) -> Result<Classes, NoMemory>
        requires { ArePlaces self.now places.now }
        ensures { IfOk result (AreNetNumbers self.now) }
    {
        self.conditions();
        let pairs = self.pairs(alloc, places)?;
        let count = self.power_number() + 1;
        let least = leasts(alloc, count, pairs.as_slice())?;
        let classes = number(alloc, least.as_slice())?;
        Ok(classes)
    }

    /// The network of a fabric, by its segments, lines and marks alone: taps join nets, and each transistor and each
    /// pull-up is a channel, in the order of the marks.
    pub fn switches(&self, alloc: Global) -> Result<Network, NoMemory>
        ensures { IfOk result (λ net. (number : Net → ℕ) × AreSwitches self.now number net) }
    {
        let places = places_of(alloc, self)?;
        let classes = self.classes(alloc, &places)?;
        let channels = self.channels(alloc, &places, classes.numbers.as_slice())?;
        Ok(untagged(alloc, classes.count, channels))
    }
}

// The network of these channels, with no tags.
fn untagged(alloc: Global, nodes: u32, channels: List<Channel>) -> Network
    requires { AreAmong nodes channels [] }
    ensures { IsUntagged nodes channels result }
{
    let tags = List::new(alloc);
    Network::checked(nodes, channels, tags).unwrap()
}
