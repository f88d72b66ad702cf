// The lines of an old image, and how many cells they name: 0 to the highest.
ghost use Rattle.std.specs.Prelude.{◌≡◌};
ghost use mathlib.Core.List.{foldl};
ghost use Rattle.lister.specs.Output.{unseen, names_cell, named_after, seen_step};

use lines::{Reader, State};

// What is known so far: the reader with its cells, and one more than the highest address that a line named.
#[derive(Drop)]
pub struct Seen {
    pub state: State,
    pub named: u64,
}

#[tactic(auto, unfolding(crate::specs::Output::names_cell))]
pub fn names_cell(b: u8, q: &Reader) -> bool
    ensures { result ≡ names_cell b q.now }
{
    b == b'\n' && !q.broken && 2 < q.line
}

#[tactic(auto, using(std::proofs::lemmas::Bool::Decides::nat_tests), unfolding(crate::specs::Output::named_after, crate::specs::Output::larger))]
pub fn named_after(b: u8, q: &Reader, n: u64) -> u64
    ensures { result ≡ named_after b q.now n }
{
    if names_cell(b, q) {
        return n.max(lines::line::following_line(q.last.x.unsigned_abs()));
    }
    n
}

impl Seen {
    // Before the first byte.
    pub fn new() -> Seen
        ensures { result ≡ unseen }
    {
        Seen {
            state: State::new(),
            named: 0,
        }
    }

    #[tactic(auto, unfolding(crate::specs::Output::seen_step))]
    pub fn take_byte(&mut self, b: u8)
        ensures { self.new ≡ seen_step self.old b }
    {
        self.state.take_byte(b);
        self.named = named_after(b, &self.state.reader, self.named);
    }

    pub fn take_part(&mut self, part: &[u8])
        ensures { self.new ≡ foldl seen_step self.old part.now }
    {
        for b in part {
            self.take_byte(*b);
        }
    }
}
