// The lines of the bytes that were read.
ghost use Rattle.std.specs.Prelude.{◌<◌, length, IfSome, MatchOption};
ghost use Rattle.bench.specs.Lines.{NoneEnds, CutsFirst};

use memchr::memchr;

// The first line, with the line feed that ends it, and what follows it, if a line ends in the bytes.
// `memchr` and not `split_inclusive`, for speed: it looks at more than one byte at a time, and takes some 40 instructions a line fewer.
#[inline(always)]
pub fn first_line(bytes: &[u8]) -> Option<(&[u8], &[u8])>
    ensures value { MatchOption result (NoneEnds bytes.now (length bytes.now)) (λ p. CutsFirst bytes.now p.0.now p.1.now) }
    ensures shorter { IfSome result (λ p. length p.1.now < length bytes.now) }
{
    let end = memchr(b'\n', bytes)?;
    Some(bytes.split_at(end + 1))
}
