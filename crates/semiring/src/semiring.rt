// A semiring by its meaning: four ghost operations, their laws, and the calls that answer them.
ghost use Rattle.std.specs.Prelude.{◌≡◌};
ghost use Rattle.semiring.specs.Semirings.{Operations, Laws, Commutes};

pub trait Semiring: Copy {
    ghost ring: { Operations Self };

    fn zero() -> Self
        ensures { result ≡ ring.zero };

    fn one() -> Self
        ensures { result ≡ ring.one };

    fn add(self, other: Self) -> Self
        ensures { result ≡ ring.plus self other };

    fn mul(self, other: Self) -> Self
        ensures { result ≡ ring.times self other };

    // The sum with a product: one step of a sum of products.
    fn add_product(self, left: Self, right: Self) -> Self
        ensures { result ≡ ring.plus self (ring.times left right) }
    {
        self.add(left.mul(right))
    }

    ghost laws: { Laws ring };

    ghost commutes: { Commutes ring };
}
