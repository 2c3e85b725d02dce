// What every line has: a letter, a comma behind it, and a line feed at its end.
ghost use Rattle.std.specs.Prelude.{◌≡◌, true, false, slice_index, MatchOption};
ghost use Rattle.lines.specs.Lines.{whole, body};

// The most bytes that a line has, with its line feed.
const MAX_LINE: usize = 121;

// The letter, and what stands between its comma and the line feed.
pub(crate) fn whole(line: &[u8]) -> Option<(u8, &[u8])>
    ensures { MatchOption result (whole line.now ≡ false) (λ t. (whole line.now ≡ true) × (t.0 ≡ slice_index line.now 0) × (t.1.now ≡ body line.now)) }
{
    let [letter, b',', body @ .., b'\n'] = line else {
        return None;
    };
    if line.len() > MAX_LINE {
        return None;
    }
    Some((*letter, body))
}
