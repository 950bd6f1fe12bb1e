// What a line of a script asks for.
use super::stack_kinds::StackKind;
use super::words::numbers;
use market::entries::RawOffer;
use std::alloc::{AllocError, Global};

// A call or a read of a running day. Not the calls of `runs`: there are reads among these, and a clear goes through the session's screen.
#[derive(Clone, Copy)]
pub enum DayCall {
    Tariff { grid: u32, fen: u32 },
    Offer(RawOffer),
    Withdraw { unit: u32 },
    Bid { grid: u32, price: u32, need: u32 },
    Clear,
    Reopen,
    Post,
    Award { place: u32 },
    Share { grid: u32 },
    SegmentQuantity { bid: u32 },
    SegmentPrice { bid: u32 },
    PointsPosted,
    EntryCount,
}

// An account of a closed day.
#[derive(Clone, Copy)]
pub enum Account {
    Charge { grid: u32 },
    Receipt { unit: u32 },
    Wires { grid: u32 },
    Branch,
}

// A call of the present screen, or a setting of it.
#[derive(Clone, Copy)]
pub enum ScreenCall {
    Limit { node: u32, limit: u32 },
    Hang { unit: u32, node: u32 },
    Parent { node: u32, parent: u32 },
    Cap { place: u32, quantity: u32 },
    Ceiling { limit: u32 },
    Reset,
    Room { place: u32 },
    Take { place: u32, quantity: u32 },
}

#[derive(Clone, Copy)]
pub enum Command {
    Day(DayCall),
    Close,
    NewDay,
    Account(Account),
    Screen(ScreenCall),
    NewScreen(StackKind),
}

impl Command {
    // The command that the words of a line say; None if they say none.
    pub fn read(heap: Global, words: &[&str]) -> Result<Option<Command>, AllocError> {
        let [verb, rest @ ..] = words else {
            return Ok(None);
        };
        if *verb == "screen" {
            return Ok(StackKind::named(rest).map(Command::NewScreen));
        }
        let Some(numbers) = numbers(heap, rest)? else {
            return Ok(None);
        };
        Ok(Command::of(verb, numbers.as_slice()))
    }

    // The command of a verb and its numbers.
    fn of(verb: &str, numbers: &[u32]) -> Option<Command> {
        match (verb, numbers) {
            ("close", []) => Some(Command::Close),
            ("day", []) => Some(Command::NewDay),
            _ => DayCall::of(verb, numbers)
                .map(Command::Day)
                .or_else(|| Account::of(verb, numbers).map(Command::Account))
                .or_else(|| ScreenCall::of(verb, numbers).map(Command::Screen)),
        }
    }
}

impl DayCall {
    fn of(verb: &str, numbers: &[u32]) -> Option<DayCall> {
        match (verb, numbers) {
            ("tariff", &[grid, fen]) => Some(DayCall::Tariff { grid, fen }),
            ("offer", figures) => raw_offer(figures).map(DayCall::Offer),
            ("withdraw", &[unit]) => Some(DayCall::Withdraw { unit }),
            ("bid", &[grid, price, need]) => Some(DayCall::Bid { grid, price, need }),
            ("clear", []) => Some(DayCall::Clear),
            ("reopen", []) => Some(DayCall::Reopen),
            ("post", []) => Some(DayCall::Post),
            ("award", &[place]) => Some(DayCall::Award { place }),
            ("share", &[grid]) => Some(DayCall::Share { grid }),
            ("segq", &[bid]) => Some(DayCall::SegmentQuantity { bid }),
            ("segp", &[bid]) => Some(DayCall::SegmentPrice { bid }),
            ("points", []) => Some(DayCall::PointsPosted),
            ("entries", []) => Some(DayCall::EntryCount),
            _ => None,
        }
    }
}

// A unit's offer: unit, grid and class, five figures, and the offers of three bands. No class has a fourth.
fn raw_offer(figures: &[u32]) -> Option<RawOffer> {
    let &[
        unit,
        grid,
        class,
        nameplate,
        own_derate,
        network_derate,
        kept_reserve,
        plan,
        first,
        second,
        third,
    ] = figures
    else {
        return None;
    };
    Some(RawOffer {
        unit,
        grid,
        class,
        nameplate,
        own_derate,
        network_derate,
        kept_reserve,
        plan,
        offers: [first, second, third, 0],
    })
}

impl Account {
    fn of(verb: &str, numbers: &[u32]) -> Option<Account> {
        match (verb, numbers) {
            ("charge", &[grid]) => Some(Account::Charge { grid }),
            ("unit", &[unit]) => Some(Account::Receipt { unit }),
            ("wires", &[grid]) => Some(Account::Wires { grid }),
            ("branch", []) => Some(Account::Branch),
            _ => None,
        }
    }
}

impl ScreenCall {
    fn of(verb: &str, numbers: &[u32]) -> Option<ScreenCall> {
        match (verb, numbers) {
            ("limit", &[node, limit]) => Some(ScreenCall::Limit { node, limit }),
            ("hang", &[unit, node]) => Some(ScreenCall::Hang { unit, node }),
            ("parent", &[node, parent]) => Some(ScreenCall::Parent { node, parent }),
            ("cap", &[place, quantity]) => Some(ScreenCall::Cap { place, quantity }),
            ("ceiling", &[limit]) => Some(ScreenCall::Ceiling { limit }),
            ("reset", []) => Some(ScreenCall::Reset),
            ("room", &[place]) => Some(ScreenCall::Room { place }),
            ("take", &[place, quantity]) => Some(ScreenCall::Take { place, quantity }),
            _ => None,
        }
    }
}
