// "Each line is five decimal numbers parted by commas and ended by a line feed: `kind,a,b,c,d`."
ghost use Rattle.std.specs.Prelude.{◌≡◌};
ghost use Rattle.recorded.specs.Reader.{no_line, pushed as Reader·pushed, number_on, comma, line_end, fed, is_at_start};

use super::number::Number;

#[derive(Clone, Copy, Default, PartialEq, Eq)]
pub struct Line {
    pub kind: i64,
    pub a: i64,
    pub b: i64,
    pub c: i64,
    pub d: i64,
}

// What was read of a line: its whole numbers, how many they are, and the one that is being read.
#[derive(Clone, Copy, Default, PartialEq, Eq)]
pub struct Reader {
    pub line: Line,
    pub whole: u32,
    pub number: Number,
}

// A line that is not five numbers.
#[derive(Clone, Copy, PartialEq, Eq)]
pub struct Broken;

impl Line {
    // A number more, behind the others: after five the first of them is the kind.
    fn pushed(self, z: i64) -> Line
        ensures { result ≡ Reader·pushed self z }
    {
        Line {
            kind: self.a,
            a: self.b,
            b: self.c,
            c: self.d,
            d: z,
        }
    }
}

impl Reader {
    pub fn new() -> Self
        ensures { result ≡ no_line }
    {
        Self::default()
    }

    // The number goes on.
    fn number_on(self, byte: u8) -> Result<Reader, Broken>
        ensures { result ≡ number_on self byte }
    {
        let number = self.number.grow(byte).ok_or(Broken)?;
        Ok(Reader { number, ..self })
    }

    // A number ends, and there is a next one.
    fn comma(self) -> Result<Reader, Broken>
        ensures { result ≡ comma self }
    {
        let z = self.number.value().ok_or(Broken)?;
        if self.whole >= 4 {
            return Err(Broken);
        }
        Ok(Reader {
            line: self.line.pushed(z),
            whole: self.whole + 1,
            number: Number::default(),
        })
    }

    // The fifth number ends the line.
    fn line_end(self) -> Result<Line, Broken>
        ensures { result ≡ line_end self }
    {
        let z = self.number.value().ok_or(Broken)?;
        if self.whole != 4 {
            return Err(Broken);
        }
        Ok(self.line.pushed(z))
    }

    // The line with one byte more, if that ends it. After its end, and where it is broken, the next byte begins a line.
    pub fn feed(&mut self, byte: u8) -> Result<Option<Line>, Broken>
        ensures { (self.new, result) ≡ fed self.old byte }
    {
        let before = *self;
        *self = Reader::new();
        match byte {
            b'\n' => Ok(Some(before.line_end()?)),
            b',' => {
                *self = before.comma()?;
                Ok(None)
            }
            _ => {
                *self = before.number_on(byte)?;
                Ok(None)
            }
        }
    }

    // Whether nothing was read of a line.
    pub fn is_at_start(&self) -> bool
        ensures { result ≡ is_at_start self.now }
    {
        self.whole == 0 && self.number == Number::default()
    }
}
