// The two sides of a product.

#[derive(Clone, Copy, Debug, PartialEq, Eq)]
pub enum Side {
    Weights,
    Activations,
}
