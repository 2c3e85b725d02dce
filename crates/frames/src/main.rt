// Reads a capture of a serial port from standard input, one piece a line, and prints for each piece
// the word that it carries, or the number and place of the refusal; and at the end how many there were.

#![tactic(auto)]

mod tally;

use refusal::Refusal;
use std::io;
use std::io::{BufRead, BufReader, BufWriter, Write};
use tally::Tally;
use wire::{FrameFault, Word, read_frame};

// Prints what came of the piece with this number. Each line stands once, so a type with a `Display` would be longer.
fn tell(out: &mut impl Write, number: u64, answer: Result<Word, FrameFault>) -> io::Result<()> {
    match answer {
        Ok(word) => {
            let Word {
                group,
                change,
                sender,
                kind,
                value,
            } = word;
            writeln!(
                out,
                "{number}: word group={group} change={change} sender={sender} kind={kind} value={value}"
            )
        }
        Err(fault) => {
            let refusal = Refusal::from(fault);
            // the line has a place in any case: 0 where the refusal has none
            let place = refusal.place.unwrap_or(0);
            let refused = refusal.number;
            writeln!(out, "{number}: refused {refused} at {place}")
        }
    }
}

fn main(rt: HostRuntime) -> io::Result<()> {
    let mut input = BufReader::new(rt.alloc(), rt.stdin())?;
    let mut out = BufWriter::new(rt.alloc(), rt.stdout())?;
    let mut piece = Vec::new(rt.alloc());
    let mut tally = Tally::new();
    // a count in place of a `loop`: each loop is proved to end, and no input has so many pieces
    for _ in 0..u64::MAX {
        piece.clear();
        if input.read_until(b'\n', &mut piece)? == 0 {
            break;
        }
        let answer = read_frame(&piece);
        tally.note(answer.is_ok());
        tell(&mut out, tally.pieces(), answer)?;
    }
    let pieces = tally.pieces();
    let words = tally.words;
    let refused = tally.refused;
    writeln!(out, "{pieces} pieces: {words} words, {refused} refused")?;
    out.flush()
}
