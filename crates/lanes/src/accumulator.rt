// Accumulators of lane kernels: products of words are added up in 16 bits or in 32. What climbs above them is lost on purpose.
ghost use Rattle.std.specs.Prelude.{◌≡◌, ℕ, ◌+◌, ◌*◌, ◌%◌, ◌^◌, refl};

pub trait Accumulator: Copy {
    ghost bits: { ℕ };

    ghost value: { Self → ℕ };

    ghost ZERO: { Self };

    const ZERO: Self;

    // What it holds.
    fn value(self) -> u32
        ensures { result ≡ value self };

    // Adds the product of two words, cut to the bits of the accumulator.
    fn add_product(self, weights: u16, activations: u16) -> Self
        ensures { value result ≡ (value self + (weights * activations) % 2 ^ bits) % 2 ^ bits };

    ghost zero_is: { value ZERO ≡ 0 };
}

impl Accumulator for u16 {
    ghost bits = { 16 };

    ghost value = { λ n. n };

    ghost ZERO = { 0 };

    ghost zero_is = { refl };

    const ZERO: u16 = 0;

    fn value(self) -> u32 {
        self as u32
    }

    fn add_product(self, weights: u16, activations: u16) -> u16 {
        self.wrapping_add(weights.wrapping_mul(activations))
    }
}

impl Accumulator for u32 {
    ghost bits = { 32 };

    ghost value = { λ n. n };

    ghost ZERO = { 0 };

    ghost zero_is = { refl };

    const ZERO: u32 = 0;

    fn value(self) -> u32 {
        self
    }

    fn add_product(self, weights: u16, activations: u16) -> u32 {
        let product = (weights as u32).wrapping_mul(activations as u32);
        self.wrapping_add(product)
    }
}
