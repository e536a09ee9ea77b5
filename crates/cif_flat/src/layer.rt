//! Names of layers.

ghost use Rattle.std.specs.Prelude.{◌≡◌, ◌≢◌, IfSome, IfNone};
ghost use Rattle.lam_geom.specs.declared.layer.Layer.{Layer};
ghost use Rattle.cif_form.specs.Place.{layer_name};

use lam_geom::Layer;

/// The layer of a name.
pub(crate) fn layer_named(name: &[u8]) -> Option<Layer>
    ensures known { IfSome result (λ l. name.now ≡ layer_name l) }
    ensures unknown { IfNone result ((l : Layer) → name.now ≢ layer_name l) }
{
    match name {
        b"ND" => Some(Layer::ND),
        b"NP" => Some(Layer::NP),
        b"NC" => Some(Layer::NC),
        b"NM" => Some(Layer::NM),
        b"NI" => Some(Layer::NI),
        b"NB" => Some(Layer::NB),
        b"NG" => Some(Layer::NG),
        _ => None,
    }
}
