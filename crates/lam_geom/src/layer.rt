//! Mask layers.

/// A mask layer of nMOS, by its name in CIF (Mead and Conway, chapter 4): diffusion, polysilicon, contact cut,
/// metal, implant, buried contact and overglass.
#[derive(Clone, Copy, PartialEq, Eq, Debug)]
pub enum Layer {
    ND,
    NP,
    NC,
    NM,
    NI,
    NB,
    NG,
}
