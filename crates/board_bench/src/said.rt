// What a frame line says: on which port, and the frame that comes in there.
ghost use Rattle.std.specs.Prelude.{◌≡◌};
ghost use Rattle.std.specs.Option.{option_map};
ghost use Rattle.board_bench.specs.Saying.{port_told, said_in};

use numerals::read_field;

// A port beyond the last is of no board either, so it is told as the last.
fn port_told(port: u16) -> u8
    ensures { result ≡ port_told port }
{
    u8::try_from(port).unwrap_or(u8::MAX)
}

// The port and the frame, if the line has a number and a comma.
pub fn read_said(line: &[u8]) -> Option<(u8, &[u8])>
    ensures { option_map (λ s. (s.0, s.1.now)) result ≡ said_in line.now }
{
    let (port, frame) = read_field(line)?;
    Some((port_told(port), frame))
}
