// Where a byte first stands.
ghost use Rattle.std.specs.Prelude.{◌≡◌, ◌==◌, ◌<◌, length, position, IfSome};

// How many bytes stand before the first mark, if there is one. `numerals` has the same of a comma, for itself alone: that crate is for numbers, and this one
// looks for the end of a line.
pub fn place_of(mark: u8, bytes: &[u8]) -> Option<usize>
    ensures value { result ≡ position (λ b. b == mark) bytes.now }
    ensures within { IfSome result (λ n. n < length bytes.now) }
{
    bytes.iter().position(|byte| *byte == mark)
}
