// The calls of the day: entries, a withdrawal, a clear, a reopening, a clear under another screen, and a post.
use anyhow::bail;
use grids::GridScreen;
use quarterhour::{BIDS, OFFERS, RawBid, WITHDRAWN};
use runs::DayCall;
use screen::{NodeLimits, OpenScreen};
use shapes::Layered;
use stacks::AnyScreen;

// The tariffs of grids 1 and 4 and, as 16, of the branch, in fen.
const TARIFFS: [(u32, u32); 3] = [(1, 500), (4, 700), (16, 300)];

// Tariffs, offers, a withdrawal and bids.
fn enter(calls: &mut Vec<DayCall<AnyScreen>>) -> anyhow::Result<()> {
    for (grid, fen) in TARIFFS {
        calls.push(DayCall::Tariff { grid, fen })?;
    }
    for offer in OFFERS {
        calls.push(DayCall::Offer(offer))?;
    }
    calls.push(DayCall::Offer(WITHDRAWN))?;
    calls.push(DayCall::Withdraw {
        unit: WITHDRAWN.unit,
    })?;
    for RawBid { grid, price, need } in BIDS {
        calls.push(DayCall::Bid { grid, price, need })?;
    }
    Ok(())
}

// As `explain` has it, but as a screen of any kind.
// A cap of 10 at place 30, over a limit of 1,000 on grid 1, on which units 0 and 3 hang.
fn limited() -> Option<AnyScreen> {
    let mut screen = AnyScreen::Grid(Layered::capped(GridScreen::new()));
    let set = [
        screen.set_limit(1, 1_000),
        screen.hang(0, 1),
        screen.hang(3, 1),
        screen.set_cap(30, 10),
    ];
    let all = set.iter().all(|answer| matches!(answer, Some(Ok(()))));
    all.then_some(screen)
}

// A clear without a screen, a reopening, a clear under limits, and the post.
fn settle(calls: &mut Vec<DayCall<AnyScreen>>) -> anyhow::Result<()> {
    let Some(screen) = limited() else {
        bail!("a setting was declined");
    };
    calls.push(DayCall::Clear(AnyScreen::Open(Layered::bare(OpenScreen))))?;
    calls.push(DayCall::Reopen)?;
    calls.push(DayCall::Clear(screen))?;
    calls.push(DayCall::Post)?;
    Ok(())
}

// All calls of the day, in order.
pub fn calls(rt: &HostRuntime) -> anyhow::Result<Vec<DayCall<AnyScreen>>> {
    let mut calls = Vec::new(rt.alloc());
    enter(&mut calls)?;
    settle(&mut calls)?;
    Ok(calls)
}
