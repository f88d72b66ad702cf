// Which line sets a label: by a table of the first 256 labels of a text, and in the text behind them.

ghost use Rattle.std.specs.Prelude.{◌≡◌, ◌==◌, ◌+◌, ◌^◌, ◌<◌, ◌≤◌, length};
ghost use Rattle.expression.specs.Table.{sets, next_line, setting, hash_from};
ghost use Rattle.expression.specs.Code.{place_found};

use super::text::{next_line, split_label};

// A number of a name.
pub fn hash(name: &[u8]) -> usize
    ensures { (result ≡ hash_from 0 name.now) × (result < 1024) }
{
    let mut hash = 0;
    for b in name {
        hash = (hash * 31 + *b as usize) % 1024;
    }
    hash
}

// Whether the line that a text begins with sets a label.
fn sets(line: &[u8], name: &[u8]) -> bool
    ensures { result ≡ sets line.now name.now }
{
    match split_label(line) {
        Some((set, _)) => set == name,
        None => false,
    }
}

// The lines of a text, numbered from `number` on. No Iterator: the assembler stops before the end, and keeps the lines that are left.
#[derive(Clone, Copy)]
pub struct Lines<'a> {
    pub text: &'a [u8],
    pub number: usize,
    pub ghost fits: { number + length text.now < 2 ^ 64 },
}

impl<'a> Lines<'a> {
    pub fn new(text: &'a [u8]) -> Lines<'a>
        ensures { (result.text.now ≡ text.now) × (result.number ≡ 0) }
    {
        Lines { text, number: 0 }
    }

    // The lines after the first.
    pub fn rest(self) -> Lines<'a>
        requires { 0 < length self.text.now }
        ensures { (result.text.now ≡ next_line self.entry.text.now) × (result.number ≡ self.entry.number + 1) }
    {
        Lines {
            text: next_line(self.text),
            number: self.number + 1,
        }
    }

    // The first line that sets a label.
    pub fn setting(self, name: &[u8]) -> Option<usize>
        ensures { place_found result ≡ setting self.entry.text.now self.entry.number name.now }
    {
        let mut lines = self;
        while !lines.text.is_empty() {
            if sets(lines.text, name) {
                return Some(lines.number);
            }
            lines = lines.rest();
        }
        None
    }
}

// A label: its name, and the number of the line that sets it.
#[derive(Clone, Copy)]
pub struct Entry<'a> {
    pub name: &'a [u8],
    pub line: usize,
}

impl<'a> Entry<'a> {
    ghost use Rattle.expression.specs.Labels.{line_of};

    // The line of this label, if it has the name.
    pub fn line_of(&self, name: &[u8]) -> Option<usize>
        ensures { place_found result ≡ line_of self.now name.now }
    {
        (self.name == name).then_some(self.line)
    }
}

// The first labels of a text, and the lines whose labels are not held. A number of a name guesses its entry, most often the right one.
// Arrays and no map: nothing is allocated. No ArrayVec: it would bring a crate to each crate above, for one push and one slice.
#[derive(Drop)]
pub struct Labels<'a> {
    pub entries: [Entry<'a>; 256],
    pub count: usize,
    pub guesses: [u8; 1024],
    pub beyond: Lines<'a>,
    pub ghost few: { count ≤ 256 },
    pub ghost room: { length entries ≡ 256 },
}

impl<'a> Labels<'a> {
    ghost use Rattle.expression.specs.Labels.{held, guessed, among, kept, lookup, IsEmpty, Pushed, Inserted, Left};

    pub fn new() -> Labels<'a>
        ensures { IsEmpty result }
    {
        Labels {
            entries: [Entry { name: &[], line: 0 }; 256],
            count: 0,
            guesses: [0; 1024],
            beyond: Lines::new(&[]),
        }
    }

    pub fn is_full(&self) -> bool
        ensures { result ≡ (self.now.count == 256) }
    {
        self.count == 256
    }

    // One label more, which its number guesses.
    pub fn push(&mut self, name: &'a [u8], line: usize)
        requires { self.old.count < 256 }
        ensures { Pushed self.old self.new name.now line }
    {
        self.guesses[hash(name)] = self.count as u8;
        self.entries[self.count] = Entry { name, line };
        self.count += 1;
    }

    // A label that is not held yet.
    pub fn insert(&mut self, name: &'a [u8], line: usize)
        requires { self.old.count < 256 }
        ensures { Inserted (kept self.old name.now) self.old self.new name.now line }
    {
        if self.find_kept(name).is_none() {
            self.push(name, line);
        }
    }

    // The labels of these lines are not held.
    pub fn leave(&mut self, lines: Lines<'a>)
        ensures { Left self.old self.new lines.entry }
    {
        self.beyond = lines;
    }

    pub fn held(&self) -> &[Entry<'a>]
        ensures { result.now ≡ held self.now }
    {
        &self.entries[..self.count]
    }

    // The line of the guess, if it has the name.
    fn guessed(&self, name: &[u8]) -> Option<usize>
        ensures { place_found result ≡ guessed self.now name.now }
    {
        let guess = self.guesses[hash(name)] as usize;
        self.held().get(guess).and_then(|entry| entry.line_of(name))
    }

    // The line of the first that has the name.
    fn among(&self, name: &[u8]) -> Option<usize>
        ensures { place_found result ≡ among (held self.now) name.now }
    {
        self.held().iter().find_map(|entry| entry.line_of(name))
    }

    // The line that sets a label, among those held: first the guess. A match, here and in find, and no or_else: tried, and nothing is inferred of a
    // closure that captures the labels, so it would state again what among promises.
    pub fn find_kept(&self, name: &[u8]) -> Option<usize>
        ensures { place_found result ≡ kept self.now name.now }
    {
        match self.guessed(name) {
            Some(line) => Some(line),
            None => self.among(name),
        }
    }

    // The line that sets a label.
    pub fn find(&self, name: &[u8]) -> Option<usize>
        ensures { place_found result ≡ lookup self.now name.now }
    {
        match self.find_kept(name) {
            Some(line) => Some(line),
            None => self.beyond.setting(name),
        }
    }
}
