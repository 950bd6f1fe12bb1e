// What came of the calls of a day, told line by line.
use book::Money;
use clearing::points::Cleared;
use day::ClosedDay;
use market::maxima::{GRIDS, UNITS};
use market::refusals::{MarketRefusal, Refusal};
use runs::{DayCall, Step};
use stacks::AnyScreen;
use std::fmt;

// A call, by its name and figures.
#[derive(Clone, Copy)]
struct Named<'a>(&'a DayCall<AnyScreen>);

impl fmt::Display for Named<'_> {
    fn fmt<W: fmt::Write>(&self, f: &mut fmt::Formatter<W>) -> fmt::Result {
        match self.0 {
            DayCall::Tariff { grid: 16, fen } => write!(f, "tariff of the branch: {fen}"),
            DayCall::Tariff { grid, fen } => write!(f, "tariff of grid {grid}: {fen}"),
            DayCall::Offer(raw) => write!(f, "offer of unit {}", raw.unit),
            DayCall::Withdraw { unit } => write!(f, "withdrawal of unit {unit}"),
            DayCall::Bid { grid, price, need } => {
                write!(f, "bid of grid {grid}: {need} at {price}")
            }
            DayCall::Clear(_) => f.write_str("clear"),
            DayCall::Reopen => f.write_str("reopen"),
            DayCall::Post => f.write_str("post"),
        }
    }
}

// What a call is answered.
#[derive(Clone, Copy)]
struct Answered(Result<(), MarketRefusal>);

impl fmt::Display for Answered {
    fn fmt<W: fmt::Write>(&self, f: &mut fmt::Formatter<W>) -> fmt::Result {
        match self.0 {
            Ok(()) => f.write_str("accepted"),
            Err(refusal) => {
                let Refusal { number, name, .. } = Refusal::from(refusal);
                write!(f, "declined with {number}, naming {name}")
            }
        }
    }
}

// The quantities above 0 of a table.
fn show_quantities(rt: &HostRuntime, what: &str, quantities: &[u32]) -> anyhow::Result<()> {
    for (number, quantity) in quantities.iter().enumerate() {
        if *quantity > 0 {
            println!(rt; "  {what} {number}: {quantity}")?;
        }
    }
    Ok(())
}

// What a clearing declares: its segments, and awards and shares above 0.
fn show_cleared(rt: &HostRuntime, cleared: &Cleared) -> anyhow::Result<()> {
    for segment in cleared.segments() {
        println!(rt;
            "  segment up to {}: sold {} at {}",
            segment.bid, segment.quantity, segment.price
        )?;
    }
    show_quantities(rt, "awarded to place", &cleared.awards)?;
    show_quantities(rt, "shared to grid", &cleared.got)
}

// Tells of every call, and of what every accepted clear declared.
pub fn show_steps(
    rt: &HostRuntime,
    calls: &[DayCall<AnyScreen>],
    steps: &[Step],
) -> anyhow::Result<()> {
    for (call, step) in calls.iter().zip(steps.iter()) {
        print!(rt; "{}", Named(call))?;
        println!(rt; ": {}", Answered(step.answer))?;
        if let (DayCall::Clear(_), Some(cleared)) = (call, &step.declared) {
            show_cleared(rt, cleared)?;
        }
    }
    Ok(())
}

// The accounts of so many parties of one kind, where there is money on them.
fn show_accounts<F: Fn(u32) -> Result<Money, MarketRefusal>>(
    rt: &HostRuntime,
    party: &str,
    count: u32,
    account: F,
) -> anyhow::Result<()>
    requires { F.IsAlwaysCallable account }
{
    for number in 0..count {
        if let Ok(Money { fen, fortieths }) = account(number) {
            if fen > 0 || fortieths > 0 {
                println!(rt; "  {party} {number}: {fen} fen and {fortieths} fortieths")?;
            }
        }
    }
    Ok(())
}

// The money of all parties.
pub fn show_money(rt: &HostRuntime, day: &ClosedDay) -> anyhow::Result<()> {
    println!(rt; "close; the money of the day:")?;
    show_accounts(rt, "charged to grid", GRIDS, |grid| day.charge(grid))?;
    show_accounts(rt, "paid to unit", UNITS, |unit| day.unit(unit))?;
    show_accounts(
        rt,
        "paid to the wires of grid",
        GRIDS,
        |grid| day.wires(grid),
    )?;
    let Money { fen, fortieths } = day.branch();
    println!(rt; "  paid to the branch: {fen} fen and {fortieths} fortieths")?;
    Ok(())
}
