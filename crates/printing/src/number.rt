// The numbers that are put as text.
ghost use Rattle.std.specs.Prelude.{◌≡◌, ℤ, pos, nat_abs};
ghost use Rattle.printing.specs.Decimal.{is_negative};

/// A number by its sign and its size.
pub trait Number: Copy {
    // The number that it is.
    ghost number: { Self → ℤ };

    fn is_negative(self) -> bool
        ensures { result ≡ is_negative (number self) };

    fn magnitude(self) -> u64
        ensures { result ≡ nat_abs (number self) };
}

impl Number for i64 {
    ghost number = { λ v. v };

    fn is_negative(self) -> bool {
        self < 0
    }

    fn magnitude(self) -> u64 {
        self.unsigned_abs()
    }
}

impl Number for u64 {
    ghost number = { pos };

    fn is_negative(self) -> bool {
        false
    }

    fn magnitude(self) -> u64 {
        self
    }
}
