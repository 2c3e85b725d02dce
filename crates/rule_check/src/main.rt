// Says of a rule whether it is good, and of sets of boards whether they are strong and ample under it.
//
// The first line asks for the rule, each further line gives a set. What a line says, what is answered to it and how the answer is written is proved
// in the modules; here is only what no contract can speak of: the input is read, and a line is printed for each answer.

#![tactic(auto)]

mod answer;
mod lines;
mod numbers;
mod reply;

use answer::{Answer, answer_to};
use lines::first_line;
use quorum::EitherRule;
use reply::{Reply, read_rule};
use std::io;
use std::io::Read;

fn report_sets(rt: &HostRuntime, rule: &EitherRule, input: &[u8]) -> io::Result<()> {
    let mut left = input;
    while let Some((line, behind)) = first_line(left) {
        let answer = Answer(answer_to(rule, line));
        println!(rt; "{answer}")?;
        left = behind;
    }
    Ok(())
}

fn report(rt: &HostRuntime, input: &[u8]) -> io::Result<()> {
    let Some((line, rest)) = first_line(input) else {
        return Ok(());
    };
    let asked = read_rule(rt.alloc(), line)?;
    let reply = Reply(asked);
    println!(rt; "{reply}")?;
    match asked {
        Ok(rule) => report_sets(rt, &rule, rest),
        Err(_) => Ok(()),
    }
}

fn main(rt: HostRuntime) -> io::Result<()> {
    let mut input = Vec::new(rt.alloc());
    rt.stdin().read_to_end(&mut input)?;
    report(&rt, &input)
}
