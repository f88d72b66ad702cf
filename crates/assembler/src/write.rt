// The last pass: the cells, into the front of the image.
ghost use Rattle.std.specs.Prelude.{◌≡◌, true, map, ◌*◌, ◌≤◌, length};
ghost use Rattle.expression.specs.Values.{values};
ghost use Rattle.expression.specs.Labels.{lookup};
ghost use Rattle.assembly.specs.Reader.{rows};
ghost use Rattle.assembly.specs.Assemble.{line_cell, put_cells};
ghost use Rattle.assembler.specs.Meaning.{is_whole, text_lines};

use super::values::body_cell;
use expression::labels::Labels;
use line::content::row;

pub fn write(text: &[u8], labels: &Labels, count: usize, image: &mut [i64])
    requires { (is_whole (rows (values (lookup labels.now)) 32 count text.now) ≡ true) × (3 * count ≤ length image.old) }
    ensures { image.new ≡ put_cells 0 (map line_cell (text_lines (lookup labels.now) count text.now)) image.old }
{
    let mut rest = text;
    for k in 0..count {
        let Some((line, after)) = row(rest, labels) else {
            return;
        };
        memory::put_cell(image, k, body_cell(line.body));
        rest = after;
    }
}
