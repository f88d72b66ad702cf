// The front of a text and the rest of it: what the readers of expressions and lines are made of.
#![tactic(auto, unfolding(crate::specs::Reader::is_space, crate::specs::Reader::is_digit, crate::specs::Reader::is_letter, crate::specs::Table::is_inner))]

ghost use Rattle.std.specs.Prelude.{◌≡◌, Bool, ℕ, option_copied};
ghost use Rattle.expression.specs.Reader.{front, past, skip, is_space, is_digit, is_letter};
ghost use Rattle.expression.specs.Table.{is_inner, next_line, label_at};
ghost use Rattle.expression.specs.Code.{Answers, cap_decimal, name_told, after};

pub fn is_space(b: u8) -> bool
    ensures { result ≡ is_space b }
{
    b == b' '
}

pub fn is_digit(b: u8) -> bool
    ensures { result ≡ is_digit b }
{
    b.is_ascii_digit()
}

pub fn is_letter(b: u8) -> bool
    ensures { result ≡ is_letter b }
{
    b.is_ascii_lowercase()
}

pub fn is_inner(b: u8) -> bool
    ensures { result ≡ is_inner b }
{
    b != b'\n' && b != 0
}

// The longest front whose bytes pass a test, and the rest.
pub fn span<F: Fn(u8) -> bool>(s: &[u8], test: F) -> (&[u8], &[u8])
    requires { F.IsAlwaysCallable test }
    ensures { (p : ℕ → Bool) → Answers (F.post test) p → (result.0.now ≡ front p s.now) × (result.1.now ≡ past p s.now) }
{
    let mut rest = s;
    while let [first, tail @ ..] = rest
        && test(*first)
    {
        rest = tail;
    }
    s.split_at(s.len() - rest.len())
}

pub fn skip_spaces(s: &[u8]) -> &[u8]
    ensures { result.now ≡ skip s.now }
{
    span(s, is_space).1
}

// The name that a text begins with, and the rest.
pub fn split_name(s: &[u8]) -> (&[u8], &[u8])
    ensures { (result.0.now ≡ front is_letter s.now) × (result.1.now ≡ past is_letter s.now) }
{
    span(s, is_letter)
}

// The line that a text begins with, and the rest from its end on.
pub fn split_line(s: &[u8]) -> (&[u8], &[u8])
    ensures { (result.0.now ≡ front is_inner s.now) × (result.1.now ≡ past is_inner s.now) }
{
    span(s, is_inner)
}

// The text from the next line on.
pub fn next_line(s: &[u8]) -> &[u8]
    ensures { result.now ≡ next_line s.now }
{
    match split_line(s).1 {
        [_, rest @ ..] => rest,
        end => end,
    }
}

// The magnitude of the digits that a text begins with, at most 2^63 + 1, and the rest.
pub fn digits(s: &[u8]) -> (u64, &[u8])
    ensures { (result.0 ≡ cap_decimal 0 (front is_digit s.now)) × (result.1.now ≡ past is_digit s.now) }
{
    let (front, rest) = span(s, is_digit);
    let mut size = 0;
    for digit in front {
        size = decimal::grown(size, *digit - b'0');
    }
    (size, rest)
}

// The text after a byte and the spaces after it, if it begins with that byte.
pub fn token(s: &[u8], byte: u8) -> Option<&[u8]>
    ensures { option_copied result ≡ after byte s.now }
{
    match s {
        [first, rest @ ..] if *first == byte => Some(skip_spaces(rest)),
        _ => None,
    }
}

// The label that a line begins with, and the text after its colon.
pub fn split_label(s: &[u8]) -> Option<(&[u8], &[u8])>
    ensures { name_told result ≡ label_at s.now }
{
    let (name, rest) = split_name(skip_spaces(s));
    match rest {
        [b':', rest @ ..] if !name.is_empty() => Some((name, rest)),
        _ => None,
    }
}
