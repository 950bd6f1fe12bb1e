#![tactic(auto)]

// Takes a day of one quarter hour through all its calls by `run`, and prints what came of each, to the money of all parties.

mod entries;
mod telling;

use runs::run;

// The day, call by call.
fn account(rt: &HostRuntime) -> anyhow::Result<()> {
    println!(rt;
        "A day of one quarter hour of the reserve market, call by call, to the money of all parties."
    )?;
    println!(rt; "Quantities are tenths of a MW, prices fen per MWh.")?;
    println!(rt;
        "It is cleared without a screen, and then with grid 1 limited to 1000 and a cap of 10 at place 30:"
    )?;
    let mut calls = entries::calls(rt)?;
    let ran = run(rt.alloc(), calls.as_mut_slice())?;
    telling::show_steps(rt, &calls, &ran.steps)?;
    telling::show_money(rt, &ran.day)
}

fn main(rt: HostRuntime) -> anyhow::Result<()> {
    account(&rt)
}
