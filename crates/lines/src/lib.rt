// Lines of four decimal numbers, which the runner took before, read byte by byte: a text comes in parts of any size and takes no more
// memory than the reader and the cells.
#![tactic(auto)]

pub mod line;
pub mod part;

ghost use Rattle.std.specs.Prelude.{◌≡◌, ◌<◌, length};
ghost use Rattle.lines.specs.Reader.{size_of, opened, empty_cells, value_of, broken, with_field, letter, opening_byte, digit, comma, minus, within, broken_line};

// The field that is being read: its minus, and what its digits say, if there are any. Not `recorded`'s `Number`: leading zeros and a minus 0 are allowed here, and a
// line breaks at the digit that passes 64 bits.
#[derive(Clone, Copy, Default)]
pub struct Field {
    pub minus: bool,
    pub magnitude: Option<u64>,
}

// The last three whole fields of the line.
#[derive(Clone, Copy, Default)]
pub struct Fields {
    pub x: i64,
    pub y: i64,
    pub z: i64,
}

// What the first line says.
#[derive(Clone, Copy, Default)]
pub struct Start {
    pub pc: i64,
    pub sp: i64,
    pub sr: i64,
}

// What is known of a text so far. Once broken, it stays at the line that broke: a flag, since the reader is fed on and the line is asked for at the end.
#[derive(Clone, Copy)]
pub struct Reader {
    pub line: u64,
    pub broken: bool,
    pub opening: u32,
    pub count: u32,
    pub last: Fields,
    pub field: Field,
    pub start: Start,
}

// The reader, and the 2,048 cells that it wrote.
#[derive(Drop)]
pub struct State {
    pub reader: Reader,
    pub cells: [i64; 6144],
}

// The cells before the first byte.
pub fn empty_cells() -> [i64; 6144]
    ensures { result ≡ empty_cells }
{
    [0; 6144]
}

// The bytes of `start,`.
#[tactic(auto, unfolding(crate::specs::Reader::letter))]
pub fn letter_at(i: u32) -> u8
    ensures { result ≡ letter i }
{
    b"start,".get(i as usize).copied().unwrap_or(b',')
}

impl Field {
    // 0 where there are no digits.
    pub fn value(self) -> i64
        ensures { result ≡ value_of self.minus (size_of self) }
    {
        decimal::value(self.minus, self.magnitude.unwrap_or(0))
    }
}

impl Reader {
    // Before the first byte. `opening` counts the bytes of `start,`, which stands for the first line's first field.
    pub fn new() -> Reader
        ensures { result ≡ opened }
    {
        Reader {
            line: 1,
            broken: false,
            opening: 0,
            count: 1,
            last: Fields::default(),
            field: Field::default(),
            start: Start::default(),
        }
    }

    pub fn break_line(&mut self)
        ensures { self.new ≡ broken self.old }
    {
        self.broken = true;
    }

    #[tactic(auto, unfolding(crate::specs::Reader::opening_byte))]
    pub fn take_opening(&mut self, b: u8)
        requires { self.old.opening < 6 }
        ensures { self.new ≡ opening_byte self.old b }
    {
        if letter_at(self.opening) == b {
            self.opening += 1;
        } else {
            self.break_line();
        }
    }

    #[tactic(auto, unfolding(crate::specs::Reader::digit))]
    pub fn take_digit(&mut self, d: u8)
        requires { d < 10 }
        ensures { self.new ≡ digit self.old d }
    {
        let minus = self.field.minus;
        let magnitude = decimal::grown(self.field.magnitude.unwrap_or(0), d);
        if decimal::is_within(minus, magnitude) {
            self.field = Field {
                minus,
                magnitude: Some(magnitude),
            };
        } else {
            self.break_line();
        }
    }

    #[tactic(auto, unfolding(crate::specs::Reader::comma))]
    pub fn take_comma(&mut self)
        ensures { self.new ≡ comma self.old }
    {
        if self.field.magnitude.is_some() && self.count < 3 {
            self.count += 1;
            self.last = Fields {
                x: self.last.y,
                y: self.last.z,
                z: self.field.value(),
            };
            self.field = Field::default();
        } else {
            self.break_line();
        }
    }

    #[tactic(auto, unfolding(crate::specs::Reader::minus))]
    pub fn take_minus(&mut self)
        ensures { self.new ≡ minus self.old }
    {
        if self.field.minus || self.field.magnitude.is_some() {
            self.break_line();
        } else {
            self.field = Field {
                minus: true,
                ..Field::default()
            };
        }
    }

    // A byte that is no line end.
    #[tactic(auto, unfolding(crate::specs::Reader::within, crate::specs::Reader::plain))]
    pub fn take_within(&mut self, b: u8)
        ensures { self.new ≡ within self.old b }
    {
        if self.broken {
            return;
        }
        if self.opening < 6 {
            return self.take_opening(b);
        }
        match b {
            b',' => self.take_comma(),
            b'-' => self.take_minus(),
            b'0'..=b'9' => self.take_digit(b - b'0'),
            _ => self.break_line(),
        }
    }

    // At the end of the text: the number of the line that breaks the form, if one does.
    #[tactic(auto, unfolding(crate::specs::Reader::broken_line))]
    pub fn broken_line(&self) -> Option<u64>
        ensures { result ≡ broken_line self.now }
    {
        let begun = self.field.minus || self.field.magnitude.is_some() || 0 < self.count;
        if self.broken || begun {
            Some(self.line)
        } else {
            None
        }
    }
}
