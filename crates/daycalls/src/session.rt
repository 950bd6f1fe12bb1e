// The day and the screen that a script works on.
use super::commands::{Account, Command, DayCall, ScreenCall};
use super::replies::Reply;
use super::stack_kinds::StackKind;
use day::{ClosedDay, RunningDay};
use screen::{NodeLimits, NodeParents, Screen};
use stacks::AnyScreen;

// The day as it stands: it takes calls, or it is closed and answers its accounts.
enum DayState {
    Running(RunningDay),
    Closed(ClosedDay),
}

// A running day has to be closed, so a session ends by `end` alone.
pub struct Session {
    day: DayState,
    screen: AnyScreen,
}

impl DayState {
    fn start() -> DayState {
        DayState::Running(RunningDay::start())
    }

    // Closes the day if it runs.
    fn closed(self) -> ClosedDay {
        match self {
            DayState::Running(day) => day.close(),
            DayState::Closed(day) => day,
        }
    }

    // Makes a call, which a closed day does not take.
    fn call(self, screen: &mut AnyScreen, call: DayCall) -> (DayState, Reply) {
        match self {
            DayState::Running(mut day) => {
                let reply = call_day(&mut day, screen, call);
                (DayState::Running(day), reply)
            }
            closed => (closed, Reply::DayClosed),
        }
    }

    fn close(self) -> (DayState, Reply) {
        match self {
            DayState::Running(day) => (DayState::Closed(day.close()), Reply::Accepted),
            closed => (closed, Reply::DayClosed),
        }
    }

    // Another day. The day before is closed, and its accounts are dropped.
    fn start_again(self) -> (DayState, Reply) {
        let _ = self.closed();
        (DayState::start(), Reply::Accepted)
    }

    // Reads an account, which a running day does not show.
    fn account(&self, account: Account) -> Reply {
        match self {
            DayState::Running(_) => Reply::DayRuns,
            DayState::Closed(day) => read_account(day, account),
        }
    }
}

// Makes a call of a running day.
fn call_day(day: &mut RunningDay, screen: &mut AnyScreen, call: DayCall) -> Reply {
    match call {
        DayCall::Tariff { grid, fen } => day.tariff(grid, fen).into(),
        DayCall::Offer(raw) => day.offer(&raw).into(),
        DayCall::Withdraw { unit } => day.withdraw(unit).into(),
        DayCall::Bid { grid, price, need } => day.bid(grid, price, need).into(),
        DayCall::Clear => day.clear(screen).into(),
        DayCall::Reopen => day.reopen().into(),
        DayCall::Post => day.post().into(),
        DayCall::Award { place } => day.award(place).into(),
        DayCall::Share { grid } => day.share(grid).into(),
        DayCall::SegmentQuantity { bid } => day.segment_quantity(bid).into(),
        DayCall::SegmentPrice { bid } => day.segment_price(bid).into(),
        DayCall::PointsPosted => Reply::Number(u32::from(day.points_posted())),
        DayCall::EntryCount => Reply::Number(day.entry_count()),
    }
}

// Reads an account of a closed day.
fn read_account(day: &ClosedDay, account: Account) -> Reply {
    match account {
        Account::Charge { grid } => day.charge(grid).into(),
        Account::Receipt { unit } => day.unit(unit).into(),
        Account::Wires { grid } => day.wires(grid).into(),
        Account::Branch => day.branch().into(),
    }
}

// Makes a call of a screen.
fn call_screen(screen: &mut AnyScreen, call: ScreenCall) -> Reply {
    match call {
        ScreenCall::Limit { node, limit } => screen.set_limit(node, limit).into(),
        ScreenCall::Hang { unit, node } => screen.hang(unit, node).into(),
        ScreenCall::Parent { node, parent } => screen.set_parent(node, parent).into(),
        ScreenCall::Cap { place, quantity } => screen.set_cap(place, quantity).into(),
        ScreenCall::Ceiling { limit } => screen.set_ceiling(limit).into(),
        ScreenCall::Reset => {
            screen.reset();
            Reply::Accepted
        }
        ScreenCall::Room { place } => Reply::Number(screen.room(place)),
        ScreenCall::Take { place, quantity } => screen.take(place, quantity).into(),
    }
}

impl Session {
    // A new day and an open screen.
    pub fn start() -> Session {
        Session {
            day: DayState::start(),
            screen: StackKind::OPEN.build(),
        }
    }

    // Makes the call or the read that a line asks for.
    pub fn answer(self, command: Command) -> (Session, Reply) {
        let Session { day, mut screen } = self;
        let (day, reply) = match command {
            Command::Day(call) => day.call(&mut screen, call),
            Command::Close => day.close(),
            Command::NewDay => day.start_again(),
            Command::Account(account) => {
                let reply = day.account(account);
                (day, reply)
            }
            Command::Screen(call) => (day, call_screen(&mut screen, call)),
            Command::NewScreen(kind) => {
                screen = kind.build();
                (day, Reply::Accepted)
            }
        };
        (Session { day, screen }, reply)
    }

    // Closes the day if it runs, and ends the session.
    pub fn end(self) {
        let Session { day, screen: _ } = self;
        let _ = day.closed();
    }
}
