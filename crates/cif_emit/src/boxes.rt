//! Layers and boxes.

ghost use Rattle.std.specs.Prelude.{◌≡◌, IfOk};
ghost use Rattle.cif_form.specs.declared.command.Command.TheVariants as commands;
ghost use Rattle.cif_form.specs.Place.{layer_name};
ghost use Rattle.cif_emit.specs.Emittable.{IsOnGrid};
ghost use Rattle.cif_emit.specs.Commands.{layers as layer_list, is_on as is_drawn_on, box_of as box_command};

use cif_form::Command;
use lam_geom::{Layer, Point, Rect};
use mp_base::{Name, NoMemory};
use std::alloc::Global;

/// The layers, in the order of their boxes.
pub(crate) fn layers() -> &'static [Layer]
    ensures { result.now ≡ layer_list }
{
    &[
        Layer::ND,
        Layer::NP,
        Layer::NC,
        Layer::NM,
        Layer::NI,
        Layer::NB,
        Layer::NG,
    ]
}

pub(crate) fn name_of(layer: Layer) -> &'static [u8]
    ensures { result.now ≡ layer_name layer }
{
    match layer {
        Layer::ND => b"ND",
        Layer::NP => b"NP",
        Layer::NC => b"NC",
        Layer::NM => b"NM",
        Layer::NI => b"NI",
        Layer::NB => b"NB",
        Layer::NG => b"NG",
    }
}

/// The command that names a layer.
pub(crate) fn layer_command(alloc: Global, layer: Layer) -> Result<Command, NoMemory>
    ensures { IfOk result (λ c. c ≡ commands.Layer (layer_name layer)) }
{
    Ok(Command::Layer(Name::from_slice(alloc, name_of(layer))?))
}

/// Whether the rectangle is of that layer, and covers something.
pub(crate) fn is_on(layer: Layer, r: &Rect) -> bool
    ensures { result ≡ is_drawn_on layer r.now }
{
    r.layer == layer && r.x0 < r.x1 && r.y0 < r.y1
}

/// The box of a rectangle, in half lambda.
pub(crate) fn box_of(r: &Rect) -> Command
    requires { IsOnGrid r.now }
    ensures { result ≡ box_command r.now }
{
    Command::Box {
        length: (r.x1 - r.x0) / 250,
        width: (r.y1 - r.y0) / 250,
        center: Point {
            x: (r.x0 + r.x1) / 500,
            y: (r.y0 + r.y1) / 500,
        },
        direction: Point { x: 1, y: 0 },
    }
}
