// Plays one board from standard input, so that a spare can be tried on a table before it goes into a cabinet.
//
// The first line has the settings, each further line a port and the frame that comes in on it. What a line says, what is answered to it and how the
// answer is written is proved in the modules; here is only what no contract can speak of: the input is read, and what the board answers is printed.

#![tactic(auto)]

mod answer;
mod asked;
mod decided;
mod fitting;
mod lines;
mod numbers;
mod place;
mod posts;
mod said;
mod turn;

use answer::Answer;
use asked::read_asked;
use board::Started;
use decided::Decided;
use fitting::fitted;
use lines::first_line;
use place::place_of;
use posts::written;
use quorum::CountRule;
use std::io;
use std::io::{Read, Write};
use turn::turn_with;
use wire::SLIP_MAX;

// Prints the frames as they stand in the buffer, each on a line of its own.
fn print_frames(rt: &HostRuntime, frames: &[u8]) -> io::Result<()> {
    let mut left = frames;
    while let Some((frame, behind)) = first_line(left) {
        print!(rt; "  ")?;
        rt.stdout().write_all(frame)?;
        left = behind;
    }
    Ok(())
}

fn tell(rt: &HostRuntime, answer: Answer, frames: &[u8]) -> io::Result<()> {
    println!(rt; "{answer}")?;
    print_frames(rt, frames)
}

fn play_line(rt: &HostRuntime, board: &mut Started<CountRule>, line: &[u8]) -> io::Result<()> {
    let before = board.decided();
    let mut buf = [0; SLIP_MAX];
    let turn = turn_with(board, line, &mut buf);
    let end = turn.end;
    tell(rt, turn.answer, &buf[0..end])?;
    if before.is_some() {
        return Ok(());
    }
    if let Some((decision, order)) = board.decided().zip(board.order()) {
        let decided = Decided { decision, order };
        println!(rt; "{decided}")?;
    }
    Ok(())
}

fn play(rt: &HostRuntime, board: &mut Started<CountRule>, input: &[u8]) -> io::Result<()> {
    let mut left = input;
    while let Some((line, behind)) = first_line(left) {
        play_line(rt, board, line)?;
        left = behind;
    }
    Ok(())
}

fn open(rt: &HostRuntime, line: &[u8], rest: &[u8]) -> io::Result<()> {
    let Some(asked) = read_asked(rt.alloc(), line)? else {
        return tell(rt, Answer::Unreadable, &[]);
    };
    match fitted(&asked) {
        Err(refusal) => tell(rt, Answer::Refused(refusal), &[]),
        Ok(board) => {
            let (mut started, slip) = board.start();
            let answer = Answer::Started(slip.count());
            let mut buf = [0; SLIP_MAX];
            let end = written(slip, &mut buf);
            tell(rt, answer, &buf[0..end])?;
            play(rt, &mut started, rest)
        }
    }
}

fn main(rt: HostRuntime) -> io::Result<()> {
    let mut input = Vec::new(rt.alloc());
    rt.stdin().read_to_end(&mut input)?;
    if input.is_empty() {
        return Ok(());
    }
    // The settings are read without their line feed, so this line is cut at its place: `first_line` leaves a line its feed, which belongs to a frame.
    match place_of(b'\n', &input) {
        None => open(&rt, &input, &[]),
        Some(end) => open(&rt, &input[..end], &input[end + 1..]),
    }
}
