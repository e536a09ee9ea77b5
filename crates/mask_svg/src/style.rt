//! How a picture looks.

ghost use Rattle.std.specs.Prelude.{◌≡◌};
ghost use Rattle.mask_svg.specs.Looks.{entries_text, key_front, style_text, view_front};

/// The colours of the layers, of which what lies below shows through, letters with a bright edge, and a white ground.
pub(crate) fn style() -> &'static [u8]
    ensures { result.now ≡ style_text }
{
    b"<style>\
text{font-family:sans-serif;paint-order:stroke;stroke:#fff;stroke-width:.2em;stroke-opacity:.7}\
path,rect{fill-opacity:.6}\
.ND{fill:#2e9e4f}.NP{fill:#d93636}.NC{fill:#000;fill-opacity:1}.NM{fill:#3a6fd8;fill-opacity:.45}\
.NI{fill:#f2c500;fill-opacity:.35}path.NI{stroke:#8a6a00;stroke-dasharray:1 3;vector-effect:non-scaling-stroke}\
.NB{fill:#7a4a21}.NG{fill:#999;fill-opacity:.35}.ground{fill:#fff;fill-opacity:1}</style>\n\
<rect class='ground' width='100%' height='100%'/>\n"
}

/// What stands before the size of the picture.
pub(crate) fn view_front() -> &'static [u8]
    ensures { result.now ≡ view_front }
{
    b"<svg xmlns='http://www.w3.org/2000/svg' viewBox='0 0 "
}

/// What stands before the place of the key.
pub(crate) fn key_front() -> &'static [u8]
    ensures { result.now ≡ key_front }
{
    b"<g font-size='.8' transform='translate("
}

/// The key of the layers and the bar of the scale, in units.
pub(crate) fn key_entries() -> &'static [u8]
    ensures { result.now ≡ entries_text }
{
    b"<rect class='ND' x='0' y='1.5' width='1' height='1'/><text x='1.4' y='2.4'>diffusion</text>\n\
<rect class='NP' x='6' y='1.5' width='1' height='1'/><text x='7.4' y='2.4'>polysilicon</text>\n\
<rect class='NM' x='12' y='1.5' width='1' height='1'/><text x='13.4' y='2.4'>metal</text>\n\
<rect class='NC' x='0' y='3' width='1' height='1'/><text x='1.4' y='3.9'>contact</text>\n\
<rect class='NI' x='6' y='3' width='1' height='1'/><text x='7.4' y='3.9'>implant</text>\n\
<rect class='NB' x='12' y='3' width='1' height='1'/><text x='13.4' y='3.9'>buried</text>\n\
<rect class='NG' x='0' y='4.5' width='1' height='1'/><text x='1.4' y='5.4'>glass</text>\n\
<rect x='0' y='6.9' width='10' height='.3'/>\n"
}
