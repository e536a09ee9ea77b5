//! A board: a device and its parts, clock by clock.

ghost use Rattle.std.specs.Prelude.{◌≡◌, ◌+◌, ◌<◌, ◌^◌, List, All, map, length, IfOk, OnOk, OnErr, string_bytes};
ghost use Rattle.stimulus.specs.Bits.{trits_of};
ghost use Rattle.outside.specs.Outside.{HasCause};
ghost use Rattle.transcript.specs.Running.{HasRoom};
ghost use Rattle.board.specs.Boarding.{AreWires};
ghost use Rattle.board.specs.Face.{Face};
ghost use Rattle.board.specs.Loop.{inputs_from, is_settled, part_of, put_at};
ghost use Rattle.board.specs.Printing.{PrintsClock, PrintsLoop};

use crate::link::Link;
use crate::moving::{give, show_settled};
use crate::pads::any_reset;
use crate::part::{NamedPart, Part};
use crate::swapping::put;
use mp_base::{List, NoMemory, Pads};
use outside::{Failed, Sink};
use std::alloc::Global;
use std::marker::Model;
use stimulus::line;
use transcript::{Device, Room};

// Gives a device what the parts drive in a clock, and lets it move.
fn step<D: Device>(
    links: &[Link],
    parts: &[NamedPart],
    clock: u32,
    pads: &Pads,
    room: &mut Room,
    device: &mut D,
)
    requires pads { D.pads_of device.old ≡ pads.now }
    requires parts { All (λ l. l.part < length parts.now) links.now }
    requires few { length pads.now.inputs < 2 ^ 32 }
    requires room { HasRoom pads.now room.old }
    ensures pads { D.pads_of device.new ≡ pads.now }
    ensures room { HasRoom pads.now room.new }
    ensures steps { let faces = map (λ p. let f : Face = record {
      state = state p.part;
      drives = (⟦<dyn Part as Part>⟧ p.part.vtable).driven_in;
      sees = (⟦<dyn Part as Part>⟧ p.part.vtable).after_seeing;
    } in f) parts.now in
        D.steps device.old (inputs_from links.now faces clock 0 pads.now.inputs)
        (trits_of pads.now.outputs room.new.outputs) device.new }
{
    give(
        links,
        parts,
        clock,
        pads.inputs.as_slice(),
        &mut room.inputs,
    );
    device.clock(&room.inputs, &mut room.outputs);
}

/// The pads of a device with the links of its parts, and all the memory that a clock takes.
#[derive(Drop)]
pub struct Board<'a> {
    pads: &'a Pads,
    links: List<Link>,
    stores: bool,
    done: u32,
    room: Room,
}

impl<'a> Model for Board<'a> {
    ghost use Rattle.board.specs.Boarding.{Boarding, IsReady};

    ghost Value = { Boarding };

    ghost view = { λ b. record {
      wired = record { pads = b.pads.now; links = b.links; stores = b.stores };
      done = b.done;
    } };

    ghost invariant = { λ b. IsReady (record { pads = b.pads.now; links = b.links; stores = b.stores }) b.room };
}

impl<'a> Board<'a> {
    /// A board of a device with these pads, which has run no clock, and whether the device stores anything. The links
    /// are dropped where memory is wanted.
    ///
    /// # Errors
    ///
    /// Want of memory.
    pub fn open(
        alloc: Global,
        pads: &'a Pads,
        links: List<Link>,
        stores: bool,
    ) -> Result<Board<'a>, NoMemory>
        requires few { length pads.now.inputs < 2 ^ 32 }
        requires wires { AreWires pads.now links }
        ensures pads { IfOk result (λ b. b.wired.pads ≡ pads.now) }
        ensures links { IfOk result (λ b. b.wired.links ≡ links) }
        ensures stores { IfOk result (λ b. b.wired.stores ≡ stores) }
        ensures done { IfOk result (λ b. b.done ≡ 0) }
    {
        let room = Room::new(alloc, pads)?;
        Ok(Board {
            pads,
            links,
            stores,
            done: 0,
            room,
        })
    }

    /// How many clocks it ran.
    pub fn done(&self) -> u32
        ensures { result ≡ self.now.done }
    {
        self.done
    }

    // Whether the clock that comes next is settled.
    fn is_settled(&self) -> bool
        ensures { result ≡ is_settled self.now.wired self.now.done }
    {
        !self.stores || (self.done > 0 && any_reset(self.pads.inputs.as_slice()))
    }

    // Runs one clock, prints its line, and moves the linked parts.
    fn clock<D: Device, O: Sink>(
        &mut self,
        device: &mut D,
        parts: &mut Vec<NamedPart>,
        out: &mut O,
    ) -> Result<(), Failed>
        requires pads { D.pads_of device.old ≡ self.old.wired.pads }
        requires parts { All (λ l. l.part < length parts.old.items) self.old.wired.links }
        requires few { self.old.done + 1 < 2 ^ 32 }
        ensures wired { self.new.wired ≡ self.old.wired }
        ensures done { OnOk result (self.new.done ≡ self.old.done + 1) }
        ensures kept { OnErr result (self.new.done ≡ self.old.done) }
        ensures pads { D.pads_of device.new ≡ D.pads_of device.old }
        ensures names { map (λ p. string_bytes p.name) parts.new.items
            ≡ map (λ p. string_bytes p.name) parts.old.items }
        ensures printed { let faces = map (λ p. let f : Face = record {
          state = state p.part;
          drives = (⟦<dyn Part as Part>⟧ p.part.vtable).driven_in;
          sees = (⟦<dyn Part as Part>⟧ p.part.vtable).after_seeing;
        } in f) in
            PrintsClock D.steps self.old.wired self.old.done device.old device.new
            (faces parts.old.items) (faces parts.new.items) (O.held out.old) (O.held out.new) result }
        ensures cause { HasCause (O.faults out.old) (O.faults out.new) result }
    {
        let settled = self.is_settled();
        step(
            self.links.as_slice(),
            parts,
            self.done,
            self.pads,
            &mut self.room,
            device,
        );
        line(self.done, self.pads, &self.room.outputs, out)?;
        show_settled(
            settled,
            self.links.as_slice(),
            self.pads.outputs.as_slice(),
            &self.room.outputs,
            parts,
        );
        self.done += 1;
        Ok(())
    }

    /// Drops the part of the link with this index, and puts another in its place, in its own state. The entry of the
    /// list keeps its name.
    pub fn swap(&mut self, parts: &mut Vec<NamedPart>, link: u32, fresh: Box<dyn Part>)
        requires link { link < length self.old.wired.links }
        requires part { part_of self.old.wired.links link < length parts.old.items }
        ensures wired { self.new.wired ≡ self.old.wired }
        ensures done { self.new.done ≡ self.old.done }
        ensures names { map (λ p. string_bytes p.name) parts.new.items
            ≡ map (λ p. string_bytes p.name) parts.old.items }
        ensures faces { let faces = map (λ p. let f : Face = record {
          state = state p.part;
          drives = (⟦<dyn Part as Part>⟧ p.part.vtable).driven_in;
          sees = (⟦<dyn Part as Part>⟧ p.part.vtable).after_seeing;
        } in f) in
            let own : Face = record {
              state = state fresh;
              drives = (⟦<dyn Part as Part>⟧ fresh.vtable).driven_in;
              sees = (⟦<dyn Part as Part>⟧ fresh.vtable).after_seeing;
            } in
            faces parts.new.items ≡ put_at own (part_of self.old.wired.links link) (faces parts.old.items) }
    {
        put(&self.links, parts, link, fresh);
    }

    /// Runs some clocks. In each the inputs are given what the parts of their links drive, within their widths, and the
    /// others 0, but 1 to `reset` in clock 0; the device moves; the line of the clock is printed; and if the clock is
    /// settled, each linked part sees its output, in the order of the links. Takes no memory.
    ///
    /// # Errors
    ///
    /// `Failed` where the sink failed: then the parts are as after the clocks whose lines were printed whole, which are
    /// those that count as run, and the device has made one clock more.
    pub fn run<D: Device, O: Sink>(
        &mut self,
        device: &mut D,
        parts: &mut Vec<NamedPart>,
        clocks: u32,
        out: &mut O,
    ) -> Result<(), Failed>
        requires pads { D.pads_of device.old ≡ self.old.wired.pads }
        requires parts { All (λ l. l.part < length parts.old.items) self.old.wired.links }
        requires few { self.old.done + clocks < 2 ^ 32 }
        ensures wired { self.new.wired ≡ self.old.wired }
        ensures pads { D.pads_of device.new ≡ D.pads_of device.old }
        ensures names { map (λ p. string_bytes p.name) parts.new.items
            ≡ map (λ p. string_bytes p.name) parts.old.items }
        ensures printed { let faces = map (λ p. let f : Face = record {
          state = state p.part;
          drives = (⟦<dyn Part as Part>⟧ p.part.vtable).driven_in;
          sees = (⟦<dyn Part as Part>⟧ p.part.vtable).after_seeing;
        } in f) in
            PrintsLoop D.steps self.old.wired self.old.done self.new.done clocks device.old device.new
            (faces parts.old.items) (faces parts.new.items) (O.held out.old) (O.held out.new) result }
        ensures cause { HasCause (O.faults out.old) (O.faults out.new) result }
    {
        for _clock in 0..clocks {
            self.clock(device, parts, out)?;
        }
        Ok(())
    }
}
