// Words copied to the start of a table.
#![tactic(auto)]

ghost use Rattle.std.specs.Prelude.{◌≡◌, ◌≤◌, length};
ghost use Rattle.words.specs.Over.{over};

// Writes words at the start of the table.
pub fn put(words: &[i32], out: &mut [i32])
    requires { length words.now ≤ length out.old }
    ensures { out.new ≡ over words.now out.old }
{
    for i in 0..words.len() {
        out[i] = words[i];
    }
}
