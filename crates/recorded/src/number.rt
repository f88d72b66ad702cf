// A number: "digits after an optional minus, without leading zeros, within signed 64 bits"
ghost use Rattle.std.specs.Prelude.{◌≡◌, ◌<◌};
ghost use Rattle.recorded.specs.Reader.{minus_read, digit_read, grown, value_of};

// What was read of a number: its minus, and what its digits say, if there are any.
#[derive(Clone, Copy, Default, PartialEq, Eq)]
pub struct Number {
    pub minus: bool,
    pub size: Option<u64>,
}

impl Number {
    fn take_minus(self) -> Option<Number>
        ensures { result ≡ minus_read self }
    {
        if self.minus || self.size.is_some() {
            return None;
        }
        Some(Number {
            minus: true,
            size: None,
        })
    }

    fn take_digit(self, d: u8) -> Option<Number>
        requires { d < 10 }
        ensures { result ≡ digit_read self d }
    {
        let size = match self.size {
            None => 0,
            Some(0) => return None,
            Some(n) => n,
        };
        Some(Number {
            size: Some(decimal::grown(size, d)),
            ..self
        })
    }

    // The number with one byte more, a digit or the minus.
    pub fn grow(self, byte: u8) -> Option<Number>
        ensures { result ≡ grown self byte }
    {
        match byte {
            b'-' => self.take_minus(),
            b'0'..=b'9' => self.take_digit(byte - b'0'),
            _ => None,
        }
    }

    // The value of a number that ends here: 0 has no minus.
    pub fn value(self) -> Option<i64>
        ensures { result ≡ value_of self }
    {
        let size = self.size?;
        if decimal::is_within(self.minus, size) && !(self.minus && size == 0) {
            return Some(decimal::value(self.minus, size));
        }
        None
    }
}
