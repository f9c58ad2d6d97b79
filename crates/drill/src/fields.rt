//! The fields that end with a count.
ghost use Rattle.std.specs.Prelude.{◌≡◌, ◌≤◌, ◌+◌, ◌++◌, ◌∷◌, length};
ghost use Rattle.surge_io.specs.Fields.{count_text};

use fixed_num::write_decimal;
use surge_io::Line;

// Adds a blank and a field of a word and a count.
pub(crate) fn add_numbered(line: &mut Line, word: &[u8], count: u64)
    requires word { length word.now ≤ 2 }
    requires room { length line.old ≤ 200 }
    ensures text { line.new ≡ line.old ++ 32 ∷ (word.now ++ count_text count) }
    ensures few { length line.new ≤ length line.old + 25 }
{
    line.add_field(word);
    push_count(line, count);
}

// Adds a count, with no blank before it.
fn push_count(line: &mut Line, count: u64)
    requires { length line.old ≤ 203 }
    ensures text { line.new ≡ line.old ++ count_text count }
    ensures few { length line.new ≤ length line.old + 22 }
{
    let mut digits = [0; 48];
    let used = write_decimal(count as i128, 0, &mut digits);
    line.push(&digits[..used]);
}
