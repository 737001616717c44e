//! What every kind of figure can do.
ghost use Rattle.std.specs.Prelude.{◌≡◌};
ghost use Rattle.kinds.specs.Semiring.{Semiring, Laws, greater as greater_of, lesser as lesser_of};

/// A kind of figure: a commutative semiring with a total preorder that its sum and product keep.
pub trait Figure: Copy {
    ghost ring: { Semiring Self };

    ghost laws: { Laws ring };

    /// The figure of no way at all: neutral in a sum.
    fn zero() -> Self
        ensures { result ≡ ring.zero };

    /// The figure that is neutral in a product.
    fn one() -> Self
        ensures { result ≡ ring.one };

    /// The sum.
    fn plus(self, other: Self) -> Self
        ensures { result ≡ ring.sum self other };

    /// The product.
    fn times(self, other: Self) -> Self
        ensures { result ≡ ring.product self other };

    /// Whether this figure ranks no higher than `other`.
    fn no_higher(self, other: Self) -> bool
        ensures { result ≡ ring.upto self other };
}

/// The greater of two figures: `b` if `a` ranks below `b`, else `a`.
pub fn greater<K: Figure>(a: K, b: K) -> K
    ensures { result ≡ greater_of K.ring a b }
{
    if b.no_higher(a) { a } else { b }
}

/// The lesser of two figures: `b` if `b` ranks below `a`, else `a`.
pub fn lesser<K: Figure>(a: K, b: K) -> K
    ensures { result ≡ lesser_of K.ring a b }
{
    if a.no_higher(b) { a } else { b }
}
