//! Looks a text up in a table.

ghost use Rattle.std.specs.Prelude.{◌≡◌, map};
ghost use Rattle.sail_grammar.specs.Words.{looked_up};

/// What stands beside the first text of the table that is this one.
pub fn look_up<T: Copy>(table: &[(&[u8], T)], text: &[u8]) -> Option<T>
    ensures { result ≡ looked_up (map (λ p. (p.0.now, p.1)) table.now) text.now }
{
    for (own, value) in table {
        if *own == text {
            return Some(*value);
        }
    }
    None
}
