// The zero points that are taken off weights and activations before they are multiplied.

#[derive(Clone, Copy, Debug, PartialEq, Eq)]
pub struct ZeroPoints {
    pub weight: i16,
    pub activation: i16,
}
