//! The text of a picture, part by part.

ghost use Rattle.std.specs.Prelude.{◌≡◌, ◌++◌, IfOk, OnOk};
ghost use Rattle.std.specs.List.{flat_map};
ghost use Rattle.cif_form.specs.Place.{layer_name};
ghost use Rattle.mask_svg.specs.Pictures.{corner_move, corner_text, far_sides_text, grain_name, head_text, height_text};
ghost use Rattle.mask_svg.specs.Pictures.{key_corner_text, key_place_text, key_size_text, key_text, label_text};
ghost use Rattle.mask_svg.specs.Pictures.{labels_text, layer_text, layers, margin_text, name_text};
ghost use Rattle.mask_svg.specs.Pictures.{named_text, near_sides_text, on_layer, picture_text, place_text, rect_text};
ghost use Rattle.mask_svg.specs.Pictures.{scale_text, shapes_text, shift_text, sides_text, sized_text, top_move};
ghost use Rattle.mask_svg.specs.Pictures.{view_text, way_tag};

use crate::frame::{Frame, frame_of};
use crate::height::{Way, compared, way_among};
use crate::style::{key_entries, key_front, style, view_front};
use crate::text::{push_count, push_name, push_negated, push_tagged};
use lam_geom::{FlatLabel, Layer, Rect};
use std::alloc::{AllocError, Global};

// The layers, in the order in which they are drawn.
fn layers() -> &'static [Layer]
    ensures { result.now ≡ layers }
{
    &[
        Layer::NI,
        Layer::ND,
        Layer::NP,
        Layer::NB,
        Layer::NM,
        Layer::NC,
        Layer::NG,
    ]
}

fn name_of(layer: Layer) -> &'static [u8]
    ensures { result.now ≡ layer_name layer }
{
    match layer {
        Layer::ND => b"ND",
        Layer::NP => b"NP",
        Layer::NC => b"NC",
        Layer::NM => b"NM",
        Layer::NI => b"NI",
        Layer::NB => b"NB",
        Layer::NG => b"NG",
    }
}

#[tactic(auto, unfolding(crate::specs::Pictures::corner_text))]
fn push_corner(text: &mut Vec<u8>, r: &Rect) -> Result<(), AllocError>
    ensures { OnOk result (text.new.items ≡ text.old.items ++ corner_text r.now) }
{
    push_tagged(text, b"M", r.x0)?;
    push_tagged(text, b" ", r.y0)
}

#[tactic(auto, unfolding(crate::specs::Pictures::far_sides_text))]
fn push_far_sides(text: &mut Vec<u8>, r: &Rect) -> Result<(), AllocError>
    ensures { OnOk result (text.new.items ≡ text.old.items ++ far_sides_text r.now) }
{
    push_tagged(text, b"H", r.x1)?;
    push_tagged(text, b"V", r.y1)
}

#[tactic(auto, unfolding(crate::specs::Pictures::near_sides_text))]
fn push_near_sides(text: &mut Vec<u8>, r: &Rect) -> Result<(), AllocError>
    ensures { OnOk result (text.new.items ≡ text.old.items ++ near_sides_text r.now) }
{
    push_tagged(text, b"H", r.x0)?;
    text.extend_from_slice(b"z")
}

#[tactic(auto, unfolding(crate::specs::Pictures::sides_text))]
fn push_sides(text: &mut Vec<u8>, r: &Rect) -> Result<(), AllocError>
    ensures { OnOk result (text.new.items ≡ text.old.items ++ sides_text r.now) }
{
    push_far_sides(text, r)?;
    push_near_sides(text, r)
}

#[tactic(auto, unfolding(crate::specs::Pictures::rect_text))]
fn push_rect(text: &mut Vec<u8>, r: &Rect) -> Result<(), AllocError>
    ensures { OnOk result (text.new.items ≡ text.old.items ++ rect_text r.now) }
{
    push_corner(text, r)?;
    push_sides(text, r)
}

// Adds the rectangles of a layer.
fn push_rects(text: &mut Vec<u8>, shapes: &[Rect], layer: Layer) -> Result<(), AllocError>
    ensures { OnOk result (text.new.items ≡ text.old.items ++ flat_map rect_text (on_layer layer shapes.now)) }
{
    for r in shapes {
        if r.layer == layer {
            push_rect(text, r)?;
        }
    }
    Ok(())
}

#[tactic(auto, unfolding(crate::specs::Pictures::layer_text))]
fn push_layer(text: &mut Vec<u8>, shapes: &[Rect], layer: Layer) -> Result<(), AllocError>
    ensures { OnOk result (text.new.items ≡ text.old.items ++ layer_text shapes.now layer) }
{
    text.extend_from_slice(b"<path class='")?;
    text.extend_from_slice(name_of(layer))?;
    text.extend_from_slice(b"' d='")?;
    push_rects(text, shapes, layer)?;
    text.extend_from_slice(b"'/>\n")
}

// Adds all layers.
fn push_layers(text: &mut Vec<u8>, shapes: &[Rect]) -> Result<(), AllocError>
    ensures { OnOk result (text.new.items ≡ text.old.items ++ flat_map (layer_text shapes.now) layers) }
{
    for layer in layers() {
        push_layer(text, shapes, *layer)?;
    }
    Ok(())
}

#[tactic(auto, unfolding(crate::specs::Pictures::shapes_text))]
fn push_shapes(text: &mut Vec<u8>, shapes: &[Rect]) -> Result<(), AllocError>
    ensures { OnOk result (text.new.items ≡ text.old.items ++ shapes_text shapes.now) }
{
    text.extend_from_slice(b"<g transform='scale(1 -1)'>\n")?;
    push_layers(text, shapes)?;
    text.extend_from_slice(b"</g>\n")
}

#[tactic(auto, unfolding(crate::specs::Pictures::place_text))]
fn push_place(text: &mut Vec<u8>, label: &FlatLabel) -> Result<(), AllocError>
    ensures { OnOk result (text.new.items ≡ text.old.items ++ place_text label.now) }
{
    push_tagged(text, b"<g transform='translate(", label.x)?;
    push_negated(text, b" ", label.y)?;
    text.extend_from_slice(b")")
}

fn way_tag(way: Way) -> &'static [u8]
    ensures { result.now ≡ way_tag way }
{
    match way {
        Way::Up => b" rotate(-90) scale(",
        Way::Across => b" scale(",
    }
}

#[tactic(auto, unfolding(crate::specs::Pictures::height_text))]
fn push_height(text: &mut Vec<u8>, way: Way, height: u64) -> Result<(), AllocError>
    ensures { OnOk result (text.new.items ≡ text.old.items ++ height_text way height) }
{
    push_count(text, way_tag(way), height as u128)
}

#[tactic(auto, unfolding(crate::specs::Pictures::name_text))]
fn push_name_of(text: &mut Vec<u8>, label: &FlatLabel) -> Result<(), AllocError>
    ensures { OnOk result (text.new.items ≡ text.old.items ++ name_text label.now) }
{
    push_name(text, label.name.bytes())?;
    text.extend_from_slice(b"</text></g>\n")
}

#[tactic(auto, unfolding(crate::specs::Pictures::named_text))]
fn push_named(text: &mut Vec<u8>, label: &FlatLabel) -> Result<(), AllocError>
    ensures { OnOk result (text.new.items ≡ text.old.items ++ named_text label.now) }
{
    text.extend_from_slice(b")'><circle r='.2'/><text x='.3'>")?;
    push_name_of(text, label)
}

#[tactic(auto, unfolding(crate::specs::Pictures::sized_text))]
fn push_label(
    text: &mut Vec<u8>,
    way: Way,
    height: u64,
    label: &FlatLabel,
) -> Result<(), AllocError>
    ensures { OnOk result (text.new.items ≡ text.old.items ++ sized_text way height label.now) }
{
    push_place(text, label)?;
    push_height(text, way, height)?;
    push_named(text, label)
}

// Adds all labels.
fn push_all(text: &mut Vec<u8>, unit: u64, labels: &[FlatLabel]) -> Result<(), AllocError>
    ensures { OnOk result (text.new.items ≡ text.old.items ++ flat_map (label_text unit labels.now) labels.now) }
{
    let others = compared(labels);
    for label in labels {
        let way = way_among(label, others, unit);
        push_label(text, way, way.height_among(label, others, unit), label)?;
    }
    Ok(())
}

#[tactic(auto, unfolding(crate::specs::Pictures::labels_text))]
fn push_labels(text: &mut Vec<u8>, frame: Frame, labels: &[FlatLabel]) -> Result<(), AllocError>
    ensures { OnOk result (text.new.items ≡ text.old.items ++ labels_text frame labels.now) }
{
    text.extend_from_slice(b"<g font-size='1'>\n")?;
    push_all(text, frame.unit(), labels)?;
    text.extend_from_slice(b"</g>\n")
}

#[tactic(auto, unfolding(crate::specs::Pictures::view_text))]
fn push_view(text: &mut Vec<u8>, frame: Frame) -> Result<(), AllocError>
    ensures { OnOk result (text.new.items ≡ text.old.items ++ view_text frame) }
{
    push_count(text, view_front(), frame.picture_width())?;
    push_count(text, b" ", frame.picture_height())?;
    text.extend_from_slice(b"'>\n")
}

#[tactic(auto, unfolding(crate::specs::Pictures::margin_text))]
fn push_margin(text: &mut Vec<u8>, frame: Frame) -> Result<(), AllocError>
    ensures { OnOk result (text.new.items ≡ text.old.items ++ margin_text frame) }
{
    let margin = 2 * frame.unit() as u128;
    push_count(text, b"<g transform='translate(", margin)?;
    push_count(text, b" ", margin)
}

#[tactic(auto, unfolding(crate::specs::Pictures::top_move))]
fn push_top_move(text: &mut Vec<u8>, frame: Frame) -> Result<(), AllocError>
    ensures { OnOk result (text.new.items ≡ text.old.items ++ top_move frame) }
{
    push_tagged(text, b" ", frame.top)?;
    text.extend_from_slice(b")'>\n")
}

#[tactic(auto, unfolding(crate::specs::Pictures::corner_move))]
fn push_corner_move(text: &mut Vec<u8>, frame: Frame) -> Result<(), AllocError>
    ensures { OnOk result (text.new.items ≡ text.old.items ++ corner_move frame) }
{
    push_negated(text, b") translate(", frame.left)?;
    push_top_move(text, frame)
}

#[tactic(auto, unfolding(crate::specs::Pictures::shift_text))]
fn push_shift(text: &mut Vec<u8>, frame: Frame) -> Result<(), AllocError>
    ensures { OnOk result (text.new.items ≡ text.old.items ++ shift_text frame) }
{
    push_margin(text, frame)?;
    push_corner_move(text, frame)
}

fn grain_name(frame: Frame) -> &'static [u8]
    ensures { result.now ≡ grain_name frame }
{
    if frame.grain() == 1 {
        b" half-units"
    } else {
        b" lambda"
    }
}

#[tactic(auto, unfolding(crate::specs::Pictures::key_corner_text))]
fn push_key_corner(text: &mut Vec<u8>, frame: Frame) -> Result<(), AllocError>
    ensures { OnOk result (text.new.items ≡ text.old.items ++ key_corner_text frame) }
{
    push_tagged(text, key_front(), frame.left)?;
    push_negated(text, b" ", frame.bottom)
}

#[tactic(auto, unfolding(crate::specs::Pictures::key_size_text))]
fn push_key_size(text: &mut Vec<u8>, frame: Frame) -> Result<(), AllocError>
    ensures { OnOk result (text.new.items ≡ text.old.items ++ key_size_text frame) }
{
    push_count(text, b") scale(", frame.unit() as u128)?;
    text.extend_from_slice(b")'>\n")
}

fn push_key_place(text: &mut Vec<u8>, frame: Frame) -> Result<(), AllocError>
    ensures { OnOk result (text.new.items ≡ text.old.items ++ key_place_text frame) }
{
    push_key_corner(text, frame)?;
    push_key_size(text, frame)
}

#[tactic(auto, unfolding(crate::specs::Pictures::scale_text))]
fn push_scale(text: &mut Vec<u8>, frame: Frame) -> Result<(), AllocError>
    ensures { OnOk result (text.new.items ≡ text.old.items ++ scale_text frame) }
{
    let count = 10 * frame.unit_count() as u128;
    push_count(text, b"<text x='11' y='7.5'>", count)?;
    text.extend_from_slice(grain_name(frame))?;
    text.extend_from_slice(b"</text>\n</g>\n")
}

#[tactic(auto, unfolding(crate::specs::Pictures::key_text))]
fn push_key(text: &mut Vec<u8>, frame: Frame) -> Result<(), AllocError>
    ensures { OnOk result (text.new.items ≡ text.old.items ++ key_text frame) }
{
    push_key_place(text, frame)?;
    text.extend_from_slice(key_entries())?;
    push_scale(text, frame)
}

#[tactic(auto, unfolding(crate::specs::Pictures::head_text))]
fn push_head(text: &mut Vec<u8>, frame: Frame) -> Result<(), AllocError>
    ensures { OnOk result (text.new.items ≡ text.old.items ++ head_text frame) }
{
    push_view(text, frame)?;
    text.extend_from_slice(style())?;
    push_shift(text, frame)
}

/// The picture of a drawing with its labels, as the text of an SVG file: a path for each layer, in half-units, a mark
/// and a name for each label, a key of the layers, and a scale in lambda, or in half-units for small drawings.
///
/// # Errors
///
/// Want of memory.
pub fn picture(alloc: Global, shapes: &[Rect], labels: &[FlatLabel]) -> Result<Vec<u8>, AllocError>
    ensures { IfOk result (λ text. text.items ≡ picture_text shapes.now labels.now) }
{
    let frame = frame_of(shapes);
    let mut text = Vec::new(alloc);
    push_head(&mut text, frame)?;
    push_shapes(&mut text, shapes)?;
    push_labels(&mut text, frame, labels)?;
    push_key(&mut text, frame)?;
    text.extend_from_slice(b"</g>\n</svg>\n")?;
    Ok(text)
}
