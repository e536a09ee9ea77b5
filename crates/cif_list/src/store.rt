//! What the commands of a file are made of.

ghost use Rattle.std.specs.Prelude.{◌≡◌, IfOk};
ghost use Rattle.cif_form.specs.declared.command.Command.TheVariants as commands;
ghost use Rattle.cif_form.specs.Fits.{Fits};
ghost use Rattle.cif_list.specs.declared.store.Head.TheVariants as heads;
ghost use Rattle.cif_list.specs.Storing.{Grows, IsHeld, Holds, command_of};
ghost use Rattle.cif_list.specs.Showing.{command_shown};

use crate::arena::{Span, add, append, part_of};
use crate::turn::{ShortTurn, append_turns, short};
use crate::view::CommandView;
use cif_form::{Command, Turns};
use lam_geom::Point;
use mp_base::NoMemory;
use std::alloc::Global;

/// A command, by what the store has of it: parts of its lists, or an index in one.
#[derive(Clone, Copy, Drop)]
pub(crate) enum Head {
    Polygon(Span),
    Box(u32),
    Round(u32),
    Wire(u32),
    Layer(Span),
    Start(u32),
    Finish,
    Delete(i32),
    /// A call with no turns, of this number.
    Plain(i32),
    Call(u32),
    User { digit: u8, text: Span },
    Comment(Span),
}

#[derive(Clone, Copy, Drop)]
pub(crate) struct BoxParts {
    pub length: i64,
    pub width: i64,
    pub center: Point,
    pub direction: Point,
}

#[derive(Clone, Copy, Drop)]
pub(crate) struct RoundParts {
    pub diameter: i64,
    pub center: Point,
}

#[derive(Clone, Copy, Drop)]
pub(crate) struct WireParts {
    pub width: i64,
    pub path: Span,
}

#[derive(Clone, Copy, Drop)]
pub(crate) struct StartParts {
    pub number: i64,
    pub a: i64,
    pub b: i64,
}

#[derive(Clone, Copy, Drop)]
pub(crate) struct CallParts {
    pub number: i32,
    pub turns: Span,
}

/// The points of all paths, the bytes of all texts, and so on. Each list only grows.
#[derive(Drop)]
pub(crate) struct Store {
    pub points: Vec<Point>,
    pub texts: Vec<u8>,
    pub turns: Vec<ShortTurn>,
    pub boxes: Vec<BoxParts>,
    pub rounds: Vec<RoundParts>,
    pub wires: Vec<WireParts>,
    pub starts: Vec<StartParts>,
    pub calls: Vec<CallParts>,
}

impl Store {
    pub(crate) fn new(alloc: Global) -> Store {
        Store {
            points: Vec::new(alloc),
            texts: Vec::new(alloc),
            turns: Vec::new(alloc),
            boxes: Vec::new(alloc),
            rounds: Vec::new(alloc),
            wires: Vec::new(alloc),
            starts: Vec::new(alloc),
            calls: Vec::new(alloc),
        }
    }

    fn put_polygon(&mut self, path: &[Point]) -> Result<Head, NoMemory>
        ensures grows { Grows self.old self.new }
        ensures ok { IfOk result (λ head. Holds self.new head (commands.Polygon path.now)) }
    {
        let path = append(&mut self.points, path)?;
        Ok(Head::Polygon(path))
    }

    fn put_box(&mut self, parts: BoxParts) -> Result<Head, NoMemory>
        ensures grows { Grows self.old self.new }
        ensures ok { IfOk result (λ head. Holds self.new head
            (commands.Box parts.length parts.width parts.center parts.direction)) }
    {
        let index = add(&mut self.boxes, parts)?;
        Ok(Head::Box(index))
    }

    fn put_round(&mut self, parts: RoundParts) -> Result<Head, NoMemory>
        ensures grows { Grows self.old self.new }
        ensures ok { IfOk result (λ head. Holds self.new head (commands.Round parts.diameter parts.center)) }
    {
        let index = add(&mut self.rounds, parts)?;
        Ok(Head::Round(index))
    }

    fn put_wire(&mut self, width: i64, path: &[Point]) -> Result<Head, NoMemory>
        ensures grows { Grows self.old self.new }
        ensures ok { IfOk result (λ head. Holds self.new head (commands.Wire width path.now)) }
    {
        let path = append(&mut self.points, path)?;
        let index = add(&mut self.wires, WireParts { width, path })?;
        Ok(Head::Wire(index))
    }

    fn put_layer(&mut self, name: &[u8]) -> Result<Head, NoMemory>
        ensures grows { Grows self.old self.new }
        ensures ok { IfOk result (λ head. Holds self.new head (commands.Layer name.now)) }
    {
        let name = append(&mut self.texts, name)?;
        Ok(Head::Layer(name))
    }

    fn put_start(&mut self, parts: StartParts) -> Result<Head, NoMemory>
        ensures grows { Grows self.old self.new }
        ensures ok { IfOk result (λ head. Holds self.new head (commands.Start parts.number parts.a parts.b)) }
    {
        let index = add(&mut self.starts, parts)?;
        Ok(Head::Start(index))
    }

    fn put_call(&mut self, number: i64, turns: &Turns) -> Result<Head, NoMemory>
        requires { Fits (commands.Call number turns.now) }
        ensures grows { Grows self.old self.new }
        ensures ok { IfOk result (λ head. Holds self.new head (commands.Call number turns.now)) }
    {
        let number = short(number);
        if turns.is_empty() {
            return Ok(Head::Plain(number));
        }
        let turns = append_turns(&mut self.turns, turns)?;
        let index = add(&mut self.calls, CallParts { number, turns })?;
        Ok(Head::Call(index))
    }

    fn put_user(&mut self, digit: u8, text: &[u8]) -> Result<Head, NoMemory>
        ensures grows { Grows self.old self.new }
        ensures ok { IfOk result (λ head. Holds self.new head (commands.User digit text.now)) }
    {
        let text = append(&mut self.texts, text)?;
        Ok(Head::User { digit, text })
    }

    fn put_comment(&mut self, text: &[u8]) -> Result<Head, NoMemory>
        ensures grows { Grows self.old self.new }
        ensures ok { IfOk result (λ head. Holds self.new head (commands.Comment text.now)) }
    {
        let text = append(&mut self.texts, text)?;
        Ok(Head::Comment(text))
    }

    /// Takes a copy of a command in.
    pub(crate) fn put(&mut self, command: &Command) -> Result<Head, NoMemory>
        requires { Fits command.now }
        ensures grows { Grows self.old self.new }
        ensures ok { IfOk result (λ head. Holds self.new head command.now) }
    {
        match command {
            Command::Polygon(path) => self.put_polygon(path.as_slice()),
            Command::Box {
                length,
                width,
                center,
                direction,
            } => self.put_box(BoxParts {
                length: *length,
                width: *width,
                center: *center,
                direction: *direction,
            }),
            Command::Round { diameter, center } => self.put_round(RoundParts {
                diameter: *diameter,
                center: *center,
            }),
            Command::Wire { width, path } => self.put_wire(*width, path.as_slice()),
            Command::Layer(name) => self.put_layer(name.bytes()),
            Command::Start { number, a, b } => self.put_start(StartParts {
                number: *number,
                a: *a,
                b: *b,
            }),
            Command::Finish => Ok(Head::Finish),
            Command::Delete(number) => Ok(Head::Delete(short(*number))),
            Command::Call { number, turns } => self.put_call(*number, turns),
            Command::User { digit, text } => self.put_user(*digit, text.bytes()),
            Command::Comment(text) => self.put_comment(text.bytes()),
        }
    }

    fn view_box(&self, index: u32) -> CommandView<'_>
        requires { IsHeld self.now (heads.Box index) }
        ensures { command_shown result ≡ command_of self.now (heads.Box index) }
    {
        let parts = self.boxes[index as usize];
        CommandView::Box {
            length: parts.length,
            width: parts.width,
            center: parts.center,
            direction: parts.direction,
        }
    }

    fn view_round(&self, index: u32) -> CommandView<'_>
        requires { IsHeld self.now (heads.Round index) }
        ensures { command_shown result ≡ command_of self.now (heads.Round index) }
    {
        let parts = self.rounds[index as usize];
        CommandView::Round {
            diameter: parts.diameter,
            center: parts.center,
        }
    }

    fn view_wire(&self, index: u32) -> CommandView<'_>
        requires { IsHeld self.now (heads.Wire index) }
        ensures { command_shown result ≡ command_of self.now (heads.Wire index) }
    {
        let parts = self.wires[index as usize];
        CommandView::Wire {
            width: parts.width,
            path: part_of(&self.points, parts.path),
        }
    }

    fn view_start(&self, index: u32) -> CommandView<'_>
        requires { IsHeld self.now (heads.Start index) }
        ensures { command_shown result ≡ command_of self.now (heads.Start index) }
    {
        let parts = self.starts[index as usize];
        CommandView::Start {
            number: parts.number,
            a: parts.a,
            b: parts.b,
        }
    }

    fn view_call(&self, index: u32) -> CommandView<'_>
        requires { IsHeld self.now (heads.Call index) }
        ensures { command_shown result ≡ command_of self.now (heads.Call index) }
    {
        let parts = self.calls[index as usize];
        CommandView::Call {
            number: parts.number as i64,
            turns: part_of(&self.turns, parts.turns),
        }
    }

    /// What is held of a command.
    pub(crate) fn view(&self, head: Head) -> CommandView<'_>
        requires { IsHeld self.now head }
        ensures { command_shown result ≡ command_of self.now head }
    {
        match head {
            Head::Polygon(span) => CommandView::Polygon(part_of(&self.points, span)),
            Head::Box(index) => self.view_box(index),
            Head::Round(index) => self.view_round(index),
            Head::Wire(index) => self.view_wire(index),
            Head::Layer(span) => CommandView::Layer(part_of(&self.texts, span)),
            Head::Start(index) => self.view_start(index),
            Head::Finish => CommandView::Finish,
            Head::Delete(number) => CommandView::Delete(number as i64),
            Head::Plain(number) => CommandView::Call {
                number: number as i64,
                turns: &[],
            },
            Head::Call(index) => self.view_call(index),
            Head::User { digit, text } => CommandView::User {
                digit,
                text: part_of(&self.texts, text),
            },
            Head::Comment(span) => CommandView::Comment(part_of(&self.texts, span)),
        }
    }
}
