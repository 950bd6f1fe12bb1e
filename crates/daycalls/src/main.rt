#![tactic(auto)]

// Reads a script of calls from standard input, a line each, and prints the answer of every call and read.
mod commands;
mod replies;
mod script_lines;
mod session;
mod stack_kinds;
mod words;

use replies::Reply;
use script_lines::Line;
use session::Session;
use std::io::{BufRead, BufReader};

// Reads a line, answers it and prints the answer; a line that is skipped has none.
fn turn(rt: &HostRuntime, session: Session, line: &[u8]) -> (Session, anyhow::Result<()>) {
    match Line::read(rt.alloc(), line) {
        Ok(Line::Skipped) => (session, Ok(())),
        Ok(Line::Unknown) => (session, print(rt, Reply::Unknown)),
        Ok(Line::Asks(command)) => {
            let (session, reply) = session.answer(command);
            (session, print(rt, reply))
        }
        Err(error) => (session, Err(error.into())),
    }
}

fn print(rt: &HostRuntime, reply: Reply) -> anyhow::Result<()> {
    rt.println(reply)?;
    Ok(())
}

// Answers every line up to the end of the input, or until reading or writing fails. The day is closed in the end.
fn run(rt: &HostRuntime) -> anyhow::Result<()> {
    let input = BufReader::new(rt.alloc(), rt.stdin())?;
    let mut session = Session::start();
    let mut result = Ok(());
    for line in input.split(rt.alloc(), b'\n') {
        let (next, said) = match line {
            Ok(line) => turn(rt, session, line.as_slice()),
            Err(error) => (session, Err(error.into())),
        };
        session = next;
        result = said;
        if result.is_err() {
            break;
        }
    }
    session.end();
    result
}

fn main(rt: HostRuntime) -> anyhow::Result<()> {
    run(&rt)
}
