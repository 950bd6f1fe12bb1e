#![tactic(auto)]

// A whole day on one call: what every list of calls brings.
ghost use Rattle.std.specs.Prelude.{◌≡◌, false, is_ok, IfOk};
ghost use Rattle.day.specs.Day.{shown, stage_read};
ghost use Rattle.runs.specs.Runs.{Laws, calls_of, Makes, Leaves, LeavesEach, RanWell};

use clearing::points::Cleared;
use day::{ClosedDay, RunningDay};
use market::entries::RawOffer;
use market::refusals::MarketRefusal;
use screen::Screen;
use std::alloc::{AllocError, Global};

// One call of a day, with its arguments. A clear carries the screen it goes through.
#[derive(Drop)]
pub enum DayCall<S> {
    Tariff { grid: u32, fen: u32 },
    Offer(RawOffer),
    Withdraw { unit: u32 },
    Bid { grid: u32, price: u32, need: u32 },
    Clear(S),
    Reopen,
    Post,
}

// What came of a call: what it answered, and all that is declared where the point is then cleared.
#[derive(Clone, Copy)]
pub struct Step {
    pub answer: Result<(), MarketRefusal>,
    pub declared: Option<Cleared>,
}

// What came of a day: a step for each call, and the day closed.
#[derive(Drop)]
pub struct Ran {
    pub steps: Vec<Step>,
    pub day: ClosedDay,
}

// Makes one call. The answer is the table's; a declaration is there exactly if the point is then cleared.
pub fn make<S: Screen>(day: &mut RunningDay, call: &mut DayCall<S>) -> Step
    ensures turn { Makes S.Screen (shown day.old) call.old result (shown day.new) }
    ensures shows { stage_read result.declared ≡ (shown day.new).stage }
    ensures left { Leaves S.Screen call.old result call.new }
{
    let answer = match call {
        DayCall::Tariff { grid, fen } => day.tariff(*grid, *fen),
        DayCall::Offer(raw) => day.offer(raw),
        DayCall::Withdraw { unit } => day.withdraw(*unit),
        DayCall::Bid { grid, price, need } => day.bid(*grid, *price, *need),
        DayCall::Clear(screen) => day.clear(screen),
        DayCall::Reopen => day.reopen(),
        DayCall::Post => day.post(),
    };
    Step {
        answer,
        declared: day.declared(),
    }
}

// Starts a day, makes the calls in order, and closes it. Where memory is wanting, no call is made.
pub fn run<S: Screen>(heap: Global, calls: &mut [DayCall<S>]) -> Result<Ran, AllocError>
    ensures promise { (laws : Laws S.Screen.fresh) × IfOk result (λ ran. RanWell (calls_of S.Screen.fresh laws calls.old) ran) }
    ensures screens { IfOk result (λ ran. LeavesEach S.Screen calls.old ran.steps.items calls.new) }
    ensures unmade { is_ok result ≡ false → calls.new ≡ calls.old }
{
    let mut steps = Vec::with_capacity(heap, calls.len())?;
    let mut day = RunningDay::start();
    for call in calls.iter_mut() {
        steps.push_reserved(make(&mut day, call));
    }
    Ok(Ran {
        steps,
        day: day.close(),
    })
}
