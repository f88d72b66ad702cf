// The second pass: where each label is set.
ghost use Rattle.std.specs.Prelude.{◌≡◌};
ghost use Rattle.expression.specs.Table.{setting};
ghost use Rattle.expression.specs.Labels.{lookup, IsEmpty};

use expression::labels::{Labels, Lines};
use expression::text::split_label;

// Where the table is full, up to the line of another label: a name that no line sets is sought in the lines behind it, and there are none if no
// line sets another.
pub fn collect<'a>(text: &'a [u8], labels: &mut Labels<'a>)
    requires { IsEmpty labels.old }
    ensures { lookup labels.new ≡ setting text.now 0 }
{
    let mut lines = Lines::new(text);
    while !lines.text.is_empty() {
        if let Some((name, _)) = split_label(lines.text) {
            if !labels.is_full() {
                labels.insert(name, lines.number);
            } else if labels.find_kept(name).is_none() {
                break;
            }
        }
        lines = lines.rest();
    }
    labels.leave(lines);
}
