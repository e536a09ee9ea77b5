//! The commands of a chip, one after another.

ghost use Rattle.std.specs.Prelude.{◌≡◌, ◌≤◌, ◌<◌, ◌∷◌, [], length, map, flat_map, drop, suc, IfOk, MatchOption, pos};
ghost use Rattle.cif_form.specs.declared.command.Command.TheVariants as commands;
ghost use Rattle.cif_form.specs.Fits.{Fits};
ghost use Rattle.cif_emit.specs.Emittable.{AreDrawable, IsOnLambda};
ghost use Rattle.cif_emit.specs.Commands.{call_at, drawn_on, label_of, layers as layer_list};
ghost use Rattle.cif_emit.specs.Commands.{layer_commands, turns_of};
ghost use Rattle.cif_emit.specs.Rest.{calls_from, from_symbol, rest, rest_of_symbol, symbol_at};
ghost use Rattle.cif_emit.specs.Rest.{Gives, IsInside, IsNextOn, IsNextLayer};

use crate::boxes::{box_of, is_on, layer_command, layers};
use crate::labels::label_command;
use cif_form::{Command, Turn, Turns};
use fabric::ChipLabel;
use lam_geom::{Layer, Point, Rect};
use mp_base::NoMemory;
use slice_symbols::Symbol;
use std::alloc::Global;

// Where the next command of a chip is. Symbols are numbered from 1 on, in their order.
#[derive(Clone, Copy)]
pub(crate) enum Cursor {
    // At the start of a symbol, or behind the last one.
    Start(usize),
    // At the name of the first layer from this one on that has boxes, or at the end of the symbol.
    NextLayer {
        symbol: usize,
        layer: usize,
    },
    // At the first box of the layer from the rectangle `at` on, or behind the layer, where `next` is the next one.
    Boxes {
        symbol: usize,
        layer: Layer,
        next: usize,
        at: usize,
    },
    // At a call of the symbol, or behind its calls.
    Calls {
        symbol: usize,
        at: usize,
    },
    // At a label.
    Labels(usize),
}

// The number of a symbol.
fn number_of(symbol: usize) -> i64
    requires { symbol < 2 }
    ensures { result ≡ pos (suc symbol) }
{
    symbol as i64 + 1
}

// The start of a symbol, whose unit is half a lambda.
fn start(symbol: usize) -> Command
    requires { symbol < 2 }
    ensures fits { Fits result }
    ensures value { result ≡ commands.Start (pos (suc symbol)) (pos 125) (pos 1) }
{
    Command::Start {
        number: number_of(symbol),
        a: 125,
        b: 1,
    }
}

// The turns of a call that raises a symbol so much.
fn turns_of(alloc: Global, height: i64) -> Result<Turns, NoMemory>
    ensures { IfOk result (λ turns. turns ≡ turns_of height) }
{
    let mut turns = Turns::new(alloc);
    if height != 0 {
        turns.push(Turn::Move(Point {
            x: 0,
            y: height / 2,
        }))?;
    }
    Ok(turns)
}

// The call of a symbol that raises it so much.
fn call(alloc: Global, symbol: usize, height: i64) -> Result<Command, NoMemory>
    requires symbol { symbol < 2 }
    requires height { IsOnLambda height }
    ensures fits { IfOk result Fits }
    ensures value { IfOk result (λ c. c ≡ call_at (pos (suc symbol)) height) }
{
    Ok(Command::Call {
        number: number_of(symbol),
        turns: turns_of(alloc, height)?,
    })
}

// The first rectangle from one on that is drawn on the layer.
fn next_on(layer: Layer, rects: &[Rect], from: usize) -> Option<usize>
    ensures { MatchOption result (drawn_on layer (drop from rects.now) ≡ []) (IsNextOn layer rects.now from) }
{
    for at in from..rects.len() {
        if is_on(layer, &rects[at]) {
            return Some(at);
        }
    }
    None
}

// The first layer from one on that has boxes, and the first rectangle that is drawn on it.
fn next_layer(rects: &[Rect], from: usize) -> Option<(usize, usize)>
    ensures { MatchOption result (flat_map (λ l. layer_commands l (drawn_on l rects.now)) (drop from layer_list) ≡ [])
        (λ found. IsNextLayer rects.now from found.0 found.1) }
{
    let layers = layers();
    for number in from..layers.len() {
        if let Some(at) = next_on(layers[number], rects, 0) {
            return Some((number, at));
        }
    }
    None
}

impl Cursor {
    // The name of the next layer of a symbol that has boxes, or the end of the symbol.
    fn next_in_symbol(
        &mut self,
        alloc: Global,
        symbols: &[Symbol],
        labels: &[ChipLabel],
        symbol: usize,
        from: usize,
    ) -> Result<Command, NoMemory>
        requires { symbol < length symbols.now }
        ensures fits { IfOk result Fits }
        ensures first { IfOk result (λ c. rest_of_symbol from (symbol_at symbols.now symbol).shapes
            (calls_from symbol 0 symbols.now labels.now) ≡ c ∷ rest self.new symbols.now labels.now) }
        ensures inside { IfOk result (λ c. IsInside self.new symbols.now) }
    {
        match next_layer(symbols[symbol].shapes.as_slice(), from) {
            Some((number, at)) => {
                let layer = layers()[number];
                let name = layer_command(alloc, layer)?;
                *self = Cursor::Boxes {
                    symbol,
                    layer,
                    next: number + 1,
                    at,
                };
                Ok(name)
            }
            None => {
                *self = Cursor::Calls { symbol, at: 0 };
                Ok(Command::Finish)
            }
        }
    }

    // A label, if there is one.
    fn next_label(
        &mut self,
        alloc: Global,
        symbols: &[Symbol],
        labels: &[ChipLabel],
        at: usize,
    ) -> Result<Option<Command>, NoMemory>
        requires { AreDrawable symbols.now labels.now }
        ensures gives { IfOk result (λ given. Gives (map label_of (drop at labels.now)) given
            (rest self.new symbols.now labels.now)) }
        ensures inside { IfOk result (λ given. IsInside self.new symbols.now) }
    {
        if at < labels.len() {
            let label = label_command(alloc, &labels[at])?;
            *self = Cursor::Labels(at + 1);
            Ok(Some(label))
        } else {
            *self = Cursor::Labels(at);
            Ok(None)
        }
    }

    // The start of a symbol, or the first label behind the last one.
    fn next_symbol(
        &mut self,
        alloc: Global,
        symbols: &[Symbol],
        labels: &[ChipLabel],
        symbol: usize,
    ) -> Result<Option<Command>, NoMemory>
        requires drawable { AreDrawable symbols.now labels.now }
        requires inside { symbol ≤ length symbols.now }
        ensures gives { IfOk result (λ given. Gives (from_symbol symbol symbols.now labels.now) given
            (rest self.new symbols.now labels.now)) }
        ensures inside { IfOk result (λ given. IsInside self.new symbols.now) }
    {
        if symbol < symbols.len() {
            *self = Cursor::NextLayer { symbol, layer: 0 };
            Ok(Some(start(symbol)))
        } else {
            self.next_label(alloc, symbols, labels, 0)
        }
    }

    // A call of a symbol, or what is behind its calls.
    fn next_call(
        &mut self,
        alloc: Global,
        symbols: &[Symbol],
        labels: &[ChipLabel],
        symbol: usize,
        at: usize,
    ) -> Result<Option<Command>, NoMemory>
        requires drawable { AreDrawable symbols.now labels.now }
        requires inside { symbol < length symbols.now }
        ensures gives { IfOk result (λ given. Gives (calls_from symbol at symbols.now labels.now) given
            (rest self.new symbols.now labels.now)) }
        ensures inside { IfOk result (λ given. IsInside self.new symbols.now) }
    {
        let heights = symbols[symbol].heights.as_slice();
        if at < heights.len() {
            let command = call(alloc, symbol, heights[at])?;
            *self = Cursor::Calls { symbol, at: at + 1 };
            Ok(Some(command))
        } else {
            self.next_symbol(alloc, symbols, labels, symbol + 1)
        }
    }

    /// The next command, if there is one.
    pub(crate) fn next(
        &mut self,
        alloc: Global,
        symbols: &[Symbol],
        labels: &[ChipLabel],
    ) -> Result<Option<Command>, NoMemory>
        requires drawable { AreDrawable symbols.now labels.now }
        requires inside { IsInside self.old symbols.now }
        ensures gives { IfOk result (λ given. Gives (rest self.old symbols.now labels.now) given
            (rest self.new symbols.now labels.now)) }
        ensures inside { IfOk result (λ given. IsInside self.new symbols.now) }
    {
        match *self {
            Cursor::Start(symbol) => self.next_symbol(alloc, symbols, labels, symbol),
            Cursor::NextLayer { symbol, layer } => {
                let command = self.next_in_symbol(alloc, symbols, labels, symbol, layer)?;
                Ok(Some(command))
            }
            Cursor::Boxes {
                symbol,
                layer,
                next,
                at,
            } => {
                let rects = symbols[symbol].shapes.as_slice();
                let Some(at) = next_on(layer, rects, at) else {
                    let command = self.next_in_symbol(alloc, symbols, labels, symbol, next)?;
                    return Ok(Some(command));
                };
                *self = Cursor::Boxes {
                    symbol,
                    layer,
                    next,
                    at: at + 1,
                };
                Ok(Some(box_of(&rects[at])))
            }
            Cursor::Calls { symbol, at } => self.next_call(alloc, symbols, labels, symbol, at),
            Cursor::Labels(at) => self.next_label(alloc, symbols, labels, at),
        }
    }
}
