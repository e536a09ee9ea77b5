//! The walk.

ghost use Rattle.std.specs.Prelude.{◌≡◌, ◌≢◌, ◌+◌, ◌*◌, ◌/◌, ◌^◌, ◌<◌, ◌≤◌, ◌++◌, ◌∷◌, [], ℕ, All, true, false, pos, ◌≤ℤ◌};
ghost use Rattle.std.specs.Prelude.{◌↔◌, length, map, slice_range, IsTrue, Some, IfOk, IfErr};
ghost use Rattle.std.specs.Prelude.{IfSome, IfNone, OnOk};
ghost use Rattle.std.specs.BTreeMap.{get};
ghost use Rattle.std.specs.Ordering.{nat_cmp};
ghost use Rattle.cif_place.specs.Placing.{IsHeld, IsFitRatio};
ghost use Rattle.cif_form.specs.Fits.{Fits};
ghost use Rattle.cif_form.specs.Walk.{FileWalks, walk_limit};
ghost use Rattle.cif_form.specs.Walk.WalkEnd.{Whole};
ghost use Rattle.cif_form.specs.Expansion.{item_at};
ghost use Rattle.cif_form.specs.declared.command.Command.TheVariants as commands;
ghost use Rattle.cif_list.specs.Turning.{wide_turn};
ghost use Rattle.cif_flat.specs.Sound.{AreClosed};
ghost use Rattle.cif_flat.specs.Walking.{EachLevel, IsNumbered, IsOpen, entered, IsBodySize, IsWalking, IsVisit};
ghost use Rattle.cif_flat.specs.Walking.{IsAfter, IsFound, IsRepeated, IsFresh, AreNamed};
ghost use Rattle.cif_flat.specs.Labelling.{IsUserAt};
ghost use Rattle.std.specs.Bool.{OnTrue, OnFalse};
ghost use Rattle.cif_flat.specs.Refusing.{RefusesWalk};

use crate::called::{Composed, placement_of, turned_at};
use crate::fault::{Fault, broken};
use crate::flat::Flat;
use crate::layer::layer_named;
use crate::level::Level;
use crate::names::{Names, Step};
use crate::symbol::{Symbol, naming_of};
use crate::table::{Table, cut, found, set};
use crate::way::{Met, is_met, joined, meet, way_to};
use cif_form::WALK_LIMIT;
use cif_list::{Cif, CommandView, ShortTurn};
use cif_place::laws::{placements_compose, rectangles_are_determined};
use cif_place::{
    BoxFault, Extent, Placement, Ratio, Wired, are_straight, are_whole, box_edges, corner_at,
    draw_polygon, draw_wire, placed_points, segment_count,
};
use lam_geom::{FlatLabel, Layer, Point, Rect};
use mp_base::{List, Refusal};
use poly_split::first_askew;
use poly_split::laws::fillings_are_laid;
use std::alloc::{AllocError, Global};

/// A walk of the items of a file: the definitions that stand, by number; the depth where each number was opened last;
/// the turns of calls that were composed, by the index of the call; the names of symbols and labels, and those of
/// labels that were met; the lists of commands that are being walked, the innermost last; and what was counted and
/// drawn.
#[derive(Drop)]
pub(crate) struct Walker {
    pub symbols: Table<Symbol>,
    pub opened: Table<usize>,
    pub calls: Table<Composed>,
    pub names: Names,
    pub met: Met,
    pub levels: Vec<Level>,
    pub count: u64,
    pub shapes: List<Rect>,
    pub labels: List<FlatLabel>,
}

impl Walker {
    /// Goes on in a list of commands.
    fn go_on(&mut self, level: Level, weight: u64) -> Result<(), AllocError>
        requires { self.old.count + weight ≤ walk_limit }
        ensures kept { OnOk result
            (self.new ≡ record self.old { count = self.old.count + weight; levels = self.new.levels }) }
        ensures pushed { OnOk result (self.new.levels.items ≡ self.old.levels.items ++ level ∷ []) }
    {
        self.count += weight;
        self.levels.push(level)?;
        Ok(())
    }

    fn set_layer(
        &mut self,
        items: &Cif,
        level: Level,
        offset: u64,
        name: &[u8],
    ) -> Result<(), Refusal>
        requires { IsVisit items.now self.old level (item_at offset (commands.Layer name.now)) }
        ensures ok { OnOk result (IsAfter items.now self.old level self.new) }
        ensures err { IfErr result (RefusesWalk items.now) }
    {
        if self.count >= WALK_LIMIT {
            return Err(broken(Fault::F7, offset));
        }
        let Some(layer) = layer_named(name) else {
            return Err(broken(Fault::F10, offset));
        };
        self.go_on(level.onward(Some(layer)), 1)?;
        Ok(())
    }

    fn comment(
        &mut self,
        items: &Cif,
        level: Level,
        offset: u64,
        text: &[u8],
    ) -> Result<(), Refusal>
        requires { IsVisit items.now self.old level (item_at offset (commands.Comment text.now)) }
        ensures ok { OnOk result (IsAfter items.now self.old level self.new) }
        ensures err { IfErr result (RefusesWalk items.now) }
    {
        if self.count >= WALK_LIMIT {
            return Err(broken(Fault::F7, offset));
        }
        self.go_on(level.onward(level.layer), 1)?;
        Ok(())
    }

    fn draw_box(
        &mut self,
        items: &Cif,
        level: Level,
        offset: u64,
        extent: Extent,
        center: &Point,
        direction: &Point,
    ) -> Result<(), Refusal>
        requires { IsVisit items.now self.old level
            (item_at offset (commands.Box extent.across extent.up center.now direction.now)) }
        ensures ok { OnOk result (IsAfter items.now self.old level self.new) }
        ensures err { IfErr result (RefusesWalk items.now) }
    {
        rectangles_are_determined();
        let edges = match box_edges(level.ratio, extent, *center, *direction) {
            Ok(edges) => edges,
            Err(BoxFault::Askew) => return Err(broken(Fault::F3, offset)),
            Err(BoxFault::Uneven) => return Err(broken(Fault::F4, offset)),
        };
        if self.count >= WALK_LIMIT {
            return Err(broken(Fault::F7, offset));
        }
        let placed = level.placement.place(edges);
        if !placed.are_near() {
            return Err(broken(Fault::F8, offset));
        }
        let Some(layer) = level.layer else {
            return Err(broken(Fault::F9, offset));
        };
        self.shapes.push(placed.rect(layer))?;
        self.go_on(level.onward(level.layer), 1)?;
        Ok(())
    }

    fn draw_wire(
        &mut self,
        items: &Cif,
        level: Level,
        offset: u64,
        extent: Extent,
        path: &[Point],
    ) -> Result<(), Refusal>
        requires square { extent.up ≡ extent.across }
        requires visit { IsVisit items.now self.old level (item_at offset (commands.Wire extent.across path.now)) }
        ensures ok { OnOk result (IsAfter items.now self.old level self.new) }
        ensures err { IfErr result (RefusesWalk items.now) }
    {
        rectangles_are_determined();
        if !are_straight(path) {
            return Err(broken(Fault::F3, offset));
        }
        let layer = level.layer.unwrap_or(Layer::ND);
        let wired = draw_wire(
            &mut self.shapes,
            level.ratio,
            level.placement,
            layer,
            extent,
            path,
        )?;
        let weight = segment_count(path) as u64;
        match wired {
            Wired::Uneven => Err(broken(Fault::F4, offset)),
            Wired::Far => {
                if weight > WALK_LIMIT - self.count {
                    return Err(broken(Fault::F7, offset));
                }
                Err(broken(Fault::F8, offset))
            }
            Wired::Drawn => {
                if weight > WALK_LIMIT - self.count {
                    return Err(broken(Fault::F7, offset));
                }
                let Some(set) = level.layer else {
                    return Err(broken(Fault::F9, offset));
                };
                self.go_on(level.onward(Some(set)), weight)?;
                Ok(())
            }
        }
    }

    fn draw_polygon(
        &mut self,
        alloc: Global,
        items: &Cif,
        level: Level,
        offset: u64,
        path: &[Point],
    ) -> Result<(), Refusal>
        requires { IsVisit items.now self.old level (item_at offset (commands.Polygon path.now)) }
        ensures ok { OnOk result (IsAfter items.now self.old level self.new) }
        ensures err { IfErr result (RefusesWalk items.now) }
    {
        fillings_are_laid();
        if !are_whole(level.ratio, path) {
            return Err(broken(Fault::F4, offset));
        }
        if path.len() < 4 {
            return Err(broken(Fault::F6, offset));
        }
        if first_askew(path).is_some() {
            return Err(broken(Fault::F6, offset));
        }
        let Some(weight) = polygon_weight(path.len(), WALK_LIMIT - self.count) else {
            return Err(broken(Fault::F7, offset));
        };
        let Some(points) = placed_points(alloc, level.ratio, level.placement, path)? else {
            return Err(broken(Fault::F8, offset));
        };
        let Some(layer) = level.layer else {
            return Err(broken(Fault::F9, offset));
        };
        draw_polygon(alloc, &mut self.shapes, layer, &points)?;
        self.go_on(level.onward(level.layer), weight)?;
        Ok(())
    }

    /// Whether a definition of a number is being expanded.
    fn is_open(&self, level: Level, number: u64) -> bool
        requires { EachLevel (IsNumbered self.now.opened) (self.now.levels.items ++ level ∷ []) }
        ensures { IsTrue result ↔ IsOpen (self.now.levels.items ++ level ∷ []) number }
    {
        if level.is_of(number) {
            return true;
        }
        let Some(depth) = found(&self.opened, number) else {
            return false;
        };
        if depth >= self.levels.len() {
            return false;
        }
        self.levels[depth].is_of(number)
    }

    /// Goes into a definition that is called.
    fn enter(
        &mut self,
        level: Level,
        number: u64,
        symbol: Symbol,
        way: Option<usize>,
        placement: Placement,
    ) -> Result<(), AllocError>
        requires count { self.old.count < walk_limit }
        requires more { level.next < level.end }
        requires outer { IsHeld (2 ^ 104 * 8_000_000) level.placement }
        requires inner { IsHeld (2 ^ 104) placement }
        ensures kept { OnOk result (self.new
            ≡ record self.old { opened = self.new.opened; count = self.old.count + 1; levels = self.new.levels }) }
        ensures pushed { OnOk result (self.new.levels.items ≡ (self.old.levels.items
            ++ (record level { next = level.next + 1 } ∷ [])) ++ entered level number symbol way placement ∷ []) }
        ensures here { OnOk result (get nat_cmp self.new.opened number ≡ Some (length self.old.levels.items + 1)) }
        ensures others { OnOk result ((k : ℕ) → k ≢ number
            → get nat_cmp self.new.opened k ≡ get nat_cmp self.old.opened k) }
    {
        let depth = self.levels.len() + 1;
        set(&mut self.opened, number, depth)?;
        self.count += 1;
        self.levels.push(level.onward(level.layer))?;
        self.levels.push(Level {
            symbol: Some(number),
            named: symbol.named,
            way,
            ratio: symbol.ratio,
            layer: None,
            placement: level.placement.after(placement),
            next: symbol.first,
            end: symbol.end,
        })?;
        Ok(())
    }

    fn call(
        &mut self,
        items: &Cif,
        level: Level,
        offset: u64,
        number: &i64,
        turns: &[ShortTurn],
    ) -> Result<(), Refusal>
        requires { IsVisit items.now self.old level
            (item_at offset (commands.Call number.now (map wide_turn turns.now))) }
        ensures ok { OnOk result (IsAfter items.now self.old level self.new) }
        ensures err { IfErr result (RefusesWalk items.now) }
    {
        let number = key_of(number);
        let Some(symbol) = found(&self.symbols, number) else {
            return Err(broken(Fault::F1, offset));
        };
        if self.is_open(level, number) {
            return Err(broken(Fault::F2, offset));
        }
        let turned = turned_at(&mut self.calls, items, level.next, level.ratio, turns)?;
        match placement_of(turned, symbol.ratio, self.count) {
            Err(fault) => Err(broken(fault, offset)),
            Ok(placement) => {
                placements_compose();
                let way = self.names.way_behind(level.way, symbol.named)?;
                self.enter(level, number, symbol, way, placement)?;
                Ok(())
            }
        }
    }

    fn define(
        &mut self,
        alloc: Global,
        items: &Cif,
        level: Level,
        offset: u64,
        number: &i64,
        a: &i64,
        b: &i64,
    ) -> Result<(), Refusal>
        requires { IsVisit items.now self.old level (item_at offset (commands.Start number.now a.now b.now)) }
        ensures ok { OnOk result (IsAfter items.now self.old level self.new) }
        ensures err { IfErr result (RefusesWalk items.now) }
    {
        let first = level.next + 1;
        let end = first + body_size(items, first, level.end);
        let named = naming_of(items, first, end);
        let named = self.names.first_named(alloc, items, named)?;
        let symbol = Symbol {
            ratio: Ratio::of(a, b),
            named,
            first,
            end,
        };
        set(&mut self.symbols, key_of(number), symbol)?;
        self.go_on(level.resumed(end + 1), 0)?;
        Ok(())
    }

    fn delete(
        &mut self,
        items: &Cif,
        level: Level,
        offset: u64,
        number: &i64,
    ) -> Result<(), Refusal>
        requires { IsVisit items.now self.old level (item_at offset (commands.Delete number.now)) }
        ensures ok { OnOk result (IsAfter items.now self.old level self.new) }
        ensures err { IfErr result (RefusesWalk items.now) }
    {
        if self.count >= WALK_LIMIT {
            return Err(broken(Fault::F7, offset));
        }
        cut(&mut self.symbols, key_of(number))?;
        self.go_on(level.onward(level.layer), 1)?;
        Ok(())
    }

    /// Whether a label of a name is a comment here, since one was met before: not at top level.
    fn is_repeated(&self, name: &[u8]) -> bool
        ensures yes { OnTrue result (IsRepeated self.now name.now) }
        ensures no { OnFalse result (IsFresh self.now name.now) }
    {
        if self.levels.len() > 0 {
            return is_met(&self.met, name);
        }
        false
    }

    /// The label that a user command is, unless it is a comment.
    fn label_at(
        &mut self,
        alloc: Global,
        items: &Cif,
        level: Level,
        offset: u64,
        digit: u8,
        text: &[u8],
    ) -> Result<Option<FlatLabel>, AllocError>
        requires fit { IsFitRatio level.ratio }
        requires held { IsHeld (2 ^ 104 * 8_000_000) level.placement }
        requires user { IsUserAt items.now level.next text.now }
        requires named { AreNamed items.now self.old.names self.old.met (self.old.levels.items ++ level ∷ []) }
        ensures found { IfOk result (IsFound items.now self.old level offset digit text.now) }
        ensures named { OnOk result
            (AreNamed items.now self.new.names self.old.met (self.old.levels.items ++ level ∷ [])) }
        ensures kept { OnOk result (self.new ≡ record self.old { names = self.new.names }) }
    {
        if digit != 9 {
            return Ok(None);
        }
        let Some(way) = level.way else {
            return Ok(None);
        };
        let Some(written) = self.names.label(alloc, items, level.next, text)? else {
            return Ok(None);
        };
        let Some(corner) = corner_at(level.ratio, level.placement, written.x, written.y) else {
            return Ok(None);
        };
        let step = Step {
            way,
            naming: written.named,
        };
        if self.levels.len() > 0 && self.names.is_repeated(step) {
            return Ok(None);
        }
        let Some(bytes) = way_to(alloc, items, &self.levels, level)? else {
            return Ok(None);
        };
        let name = joined(bytes, written.named.bytes(items))?;
        if self.is_repeated(name.bytes()) {
            self.names.repeat(step)?;
            return Ok(None);
        }
        Ok(Some(FlatLabel {
            offset,
            name,
            x: corner.x,
            y: corner.y,
            layer: written.layer,
        }))
    }

    fn user(
        &mut self,
        alloc: Global,
        items: &Cif,
        level: Level,
        offset: u64,
        digit: &u8,
        text: &[u8],
    ) -> Result<(), Refusal>
        requires { IsVisit items.now self.old level (item_at offset (commands.User digit.now text.now)) }
        ensures ok { OnOk result (IsAfter items.now self.old level self.new) }
        ensures err { IfErr result (RefusesWalk items.now) }
    {
        if self.count >= WALK_LIMIT {
            return Err(broken(Fault::F7, offset));
        }
        if let Some(label) = self.label_at(alloc, items, level, offset, *digit, text)? {
            meet(alloc, &mut self.met, label.name.bytes())?;
            self.labels.push(label)?;
        }
        self.go_on(level.onward(level.layer), 1)?;
        Ok(())
    }

    /// Walks the next command of the innermost list.
    fn visit(&mut self, alloc: Global, items: &Cif, level: Level) -> Result<(), Refusal>
        requires fit { All (λ i. Fits i.command) items.now }
        requires walking { IsWalking items.now self.old (self.old.levels.items ++ level ∷ []) }
        requires more { level.next < level.end }
        ensures ok { OnOk result (IsAfter items.now self.old level self.new) }
        ensures err { IfErr result (RefusesWalk items.now) }
    {
        let item = items.at(level.next);
        let offset = item.offset;
        match &item.command {
            CommandView::Polygon(path) => self.draw_polygon(alloc, items, level, offset, path),
            CommandView::Box {
                length,
                width,
                center,
                direction,
            } => self.draw_box(
                items,
                level,
                offset,
                Extent::of(length, width),
                center,
                direction,
            ),
            CommandView::Round { .. } => Err(broken(Fault::F5, offset)),
            CommandView::Wire { width, path } => {
                self.draw_wire(items, level, offset, Extent::of(width, width), path)
            }
            CommandView::Layer(name) => self.set_layer(items, level, offset, name),
            CommandView::Start { number, a, b } => {
                self.define(alloc, items, level, offset, number, a, b)
            }
            CommandView::Finish => unreachable!(),
            CommandView::Delete(number) => self.delete(items, level, offset, number),
            CommandView::Call { number, turns } => self.call(items, level, offset, number, turns),
            CommandView::User { digit, text } => {
                self.user(alloc, items, level, offset, digit, text)
            }
            CommandView::Comment(text) => self.comment(items, level, offset, text),
        }
    }

    fn new(alloc: Global, items: &Cif) -> Result<Walker, AllocError>
        requires { AreClosed false items.now }
        ensures { IfOk result (λ w. IsWalking items.now w w.levels.items) }
    {
        placements_compose();
        let mut levels = Vec::new(alloc);
        levels.push(Level::top(items.len()))?;
        Ok(Walker {
            symbols: Table::new(alloc),
            opened: Table::new(alloc),
            calls: Table::new(alloc),
            names: Names::new(alloc),
            met: Met::new(alloc),
            levels,
            count: 0,
            shapes: List::new(alloc),
            labels: List::new(alloc),
        })
    }

    /// What was drawn.
    pub(crate) fn into_flat(self) -> Flat
        ensures { result ≡ record { shapes = self.shapes; labels = self.labels } }
    {
        Flat {
            shapes: self.shapes,
            labels: self.labels,
        }
    }

    /// Walks the items of a file.
    pub(crate) fn walk(alloc: Global, items: &Cif) -> Result<Walker, Refusal>
        requires fit { All (λ i. Fits i.command) items.now }
        requires closed { AreClosed false items.now }
        ensures ok { IfOk result (λ w. FileWalks items.now w.shapes w.labels Whole) }
        ensures err { IfErr result (RefusesWalk items.now) }
    {
        let mut walker = Walker::new(alloc, items)?;
        while let Some(level) = walker.levels.pop() {
            if level.next < level.end {
                walker.visit(alloc, items, level)?;
            }
        }
        Ok(walker)
    }
}

/// How many commands stand before the finish of an open definition, whose commands begin at an index.
fn body_size(items: &Cif, first: usize, end: usize) -> usize
    requires forward { first ≤ end }
    requires within { end ≤ length items.now }
    requires closed { AreClosed true (slice_range items.now first end) }
    ensures { IsBodySize (slice_range items.now first end) result }
{
    for size in 0..end - first {
        if let CommandView::Finish = items.at(first + size).command {
            return size;
        }
    }
    end - first
}

/// How many walked items a polygon of so many points is, if that many are left.
fn polygon_weight(size: usize, left: u64) -> Option<u64>
    ensures some { IfSome result (λ n. (n ≡ size * size / 4) × (n ≤ left)) }
    ensures none { IfNone result (left < size * size / 4) }
{
    let size = size as u128;
    let weight = size * size / 4;
    if weight > u128::from(left) {
        return None;
    }
    Some(weight as u64)
}

/// A number of a definition.
fn key_of(number: &i64) -> u64
    requires { pos 0 ≤ℤ number.now }
    ensures { pos result ≡ number.now }
{
    *number as u64
}
