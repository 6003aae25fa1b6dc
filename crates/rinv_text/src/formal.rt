//! The formal numbers of an expression: degrees and numbers of terms before anything is multiplied out.

ghost use Rattle.std.specs.Prelude.{◌≡◌};
ghost use Rattle.rinv_text.specs.Formal.{of_number, of_variable, formal_sum, formal_product, turned, is_above, has_more};
ghost use Rattle.rinv_text.specs.Sizes.{IsCapped, capped};

// The greatest formal degree, and the greatest exponent.
pub(crate) const MAX_DEGREE: u64 = 64;

// The greatest number of formal terms.
pub(crate) const MAX_TERMS: u64 = 1_000_000;

/// Degrees and numbers of terms of the numerator and the denominator of an expression, before anything is multiplied out.
#[derive(Clone, Copy, Debug, PartialEq, Eq)]
pub struct Formal {
    pub num_degree: u64,
    pub den_degree: u64,
    pub num_terms: u64,
    pub den_terms: u64,
}

// The numbers of a number.
pub(crate) const NUMBER: Formal = Formal {
    num_degree: 0,
    den_degree: 0,
    num_terms: 1,
    den_terms: 1,
};

// Those of a variable.
pub(crate) const VARIABLE: Formal = Formal {
    num_degree: 1,
    den_degree: 0,
    num_terms: 1,
    den_terms: 1,
};

impl Formal {
    // Those of a sum or a difference.
    pub(crate) fn sum(self, other: Formal) -> Formal
        requires left { IsCapped self }
        requires right { IsCapped other }
        ensures { result ≡ formal_sum self other }
    {
        let left = self.num_degree + other.den_degree;
        let right = other.num_degree + self.den_degree;
        Formal {
            num_degree: left.max(right),
            den_degree: self.den_degree + other.den_degree,
            num_terms: self.num_terms * other.den_terms + other.num_terms * self.den_terms,
            den_terms: self.den_terms * other.den_terms,
        }
    }

    // Those of a product.
    pub(crate) fn product(self, other: Formal) -> Formal
        requires left { IsCapped self }
        requires right { IsCapped other }
        ensures { result ≡ formal_product self other }
    {
        Formal {
            num_degree: self.num_degree + other.num_degree,
            den_degree: self.den_degree + other.den_degree,
            num_terms: self.num_terms * other.num_terms,
            den_terms: self.den_terms * other.den_terms,
        }
    }

    // Those of one divided by it.
    pub(crate) fn turned(self) -> Formal
        ensures { result ≡ turned self }
    {
        Formal {
            num_degree: self.den_degree,
            den_degree: self.num_degree,
            num_terms: self.den_terms,
            den_terms: self.num_terms,
        }
    }

    // The numbers, where what is too great is counted as one more than the limit.
    pub(crate) fn capped(self) -> Formal
        ensures value { result ≡ capped self }
        ensures capped { IsCapped result }
    {
        Formal {
            num_degree: self.num_degree.min(MAX_DEGREE + 1),
            den_degree: self.den_degree.min(MAX_DEGREE + 1),
            num_terms: self.num_terms.min(MAX_TERMS + 1),
            den_terms: self.den_terms.min(MAX_TERMS + 1),
        }
    }

    // Whether a degree is too great.
    pub(crate) fn is_above(self) -> bool
        ensures { result ≡ is_above self }
    {
        self.num_degree > MAX_DEGREE || self.den_degree > MAX_DEGREE
    }

    // Whether a number of terms is too great.
    pub(crate) fn has_more(self) -> bool
        ensures { result ≡ has_more self }
    {
        self.num_terms > MAX_TERMS || self.den_terms > MAX_TERMS
    }
}
