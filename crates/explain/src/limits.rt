// A screen at work: a tree of corridors, and a cap layer over it.
use anyhow::bail;
use corridors::CorridorScreen;
use layers::caps::CapLayer;
use layers::setters::PlaceCaps;
use market::refusals::{Refusal, ScreenRefusal};
use screen::{NodeLimits, NodeParents, Screen};

// Corridor 0 with limit 100, corridor 1 below it with limit 70; unit 0 hangs on corridor 1, unit 1 on corridor 0.
fn two_corridors() -> Result<CorridorScreen, ScreenRefusal> {
    let mut screen = CorridorScreen::new();
    screen.set_limit(0, 100)?;
    screen.set_limit(1, 70)?;
    screen.set_parent(1, 0)?;
    screen.hang(0, 1)?;
    screen.hang(1, 0)?;
    Ok(screen)
}

// Takes a quantity at a place and says what came of it, with the rooms of units 0 and 1 then.
fn show_take<S: Screen>(
    rt: &HostRuntime,
    screen: &mut S,
    place: u32,
    quantity: u32,
) -> anyhow::Result<()> {
    match screen.take(place, quantity) {
        Ok(()) => print!(rt; "  take {quantity} at place {place}: taken;")?,
        Err(refusal) => print!(rt;
            "  take {quantity} at place {place}: refusal {};",
            Refusal::from(refusal).number
        )?,
    }
    println!(rt;
        " room {} at place 0, {} at place 4",
        screen.room(0),
        screen.room(4)
    )?;
    Ok(())
}

fn show_takes<S: Screen>(rt: &HostRuntime, screen: &mut S) -> anyhow::Result<()> {
    show_take(rt, screen, 0, 71)?;
    show_take(rt, screen, 0, 60)?;
    show_take(rt, screen, 4, 41)?;
    show_take(rt, screen, 4, 30)?;
    screen.reset();
    println!(rt; "  reset: room {} at place 0", screen.room(0))?;
    Ok(())
}

// Shows the corridors alone, and then under a cap of 10 at place 0.
pub fn show(rt: &HostRuntime) -> anyhow::Result<()> {
    println!(rt; "")?;
    println!(rt;
        "A screen: corridor 0 limited to 100, corridor 1 below it to 70; unit 0 on 1, unit 1 on 0:"
    )?;
    let Ok(mut corridors) = two_corridors() else {
        bail!("a limit was declined");
    };
    show_takes(rt, &mut corridors)?;
    println!(rt; "The same under a cap of 10 at place 0:")?;
    let mut capped = CapLayer::over(corridors);
    if capped.set_cap(0, 10).is_err() {
        bail!("the cap was declined");
    }
    show_takes(rt, &mut capped)
}
