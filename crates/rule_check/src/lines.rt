// The lines of the input.
ghost use Rattle.std.specs.Prelude.{◌≡◌, ◌<◌, [], length, MatchOption};
ghost use Rattle.std.specs.List.{before_first, after_first};
ghost use Rattle.rule_check.specs.Lines.{is_feed};

// The first line without its line feed, and what follows it, if there is any input. It cuts off every line, the one that asks for the rule and those
// that give sets: of a line that `split_inclusive` gives in `main.rt`, no contract would say where it ends.
pub fn first_line(input: &[u8]) -> Option<(&[u8], &[u8])>
    ensures { MatchOption result (input.now ≡ []) (λ p. (0 < length input.now) × (p.0.now ≡ before_first is_feed input.now) × (p.1.now ≡ after_first is_feed input.now)) }
{
    if input.is_empty() {
        return None;
    }
    match input.iter().position(|byte| *byte == b'\n') {
        Some(n) => Some((&input[..n], &input[n + 1..])),
        None => Some((input, &[])),
    }
}
