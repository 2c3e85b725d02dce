// Plays a whole harbour from session lines: standard input has the lines, and for each an answer is printed.
//
// What a line does and how its answer is written is proved in `session`, and where a line ends in `cut`; here is only what no contract can speak of: input is
// read and answers are printed.

#![tactic(auto)]

mod cut;

use cut::first_line;
use session::{Gathered, Session};
use std::io;
use std::io::{BufWriter, Read, Write};

// How many bytes are read at a time.
const CHUNK: usize = 65536;

// Plays the lines that the bytes end; what is left of them begins the next line.
fn play(
    out: &mut impl Write,
    session: &mut Session,
    begun: &mut Gathered,
    bytes: &[u8],
) -> io::Result<()> {
    // one place for all answers, for speed: a new one for each takes 80 instructions more
    let mut answer = Gathered::new();
    let mut left = bytes;
    while let Some((line, behind)) = first_line(left) {
        session.play_ended(begun, line).put_line(&mut answer);
        out.write_all(answer.line())?;
        left = behind;
    }
    begun.add_all(left);
    Ok(())
}

fn main(rt: HostRuntime) -> io::Result<()> {
    let mut out = BufWriter::new(rt.alloc(), rt.stdout())?;
    let mut chunk = vec![in rt.alloc(); 0; CHUNK]?;
    let mut session = Session::new();
    let mut begun = Gathered::new();
    // A count, as a loop that waits on input has no other form yet.
    for _ in 0..u64::MAX {
        let many = rt.stdin().read(&mut chunk)?;
        if many == 0 {
            break;
        }
        play(&mut out, &mut session, &mut begun, &chunk[0..many])?;
    }
    if !begun.line().is_empty() {
        play(&mut out, &mut session, &mut begun, b"\n")?;
    }
    out.flush()
}
