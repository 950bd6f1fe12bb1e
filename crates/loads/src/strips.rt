// The strip of tariffs, set on a day.
ghost use Rattle.std.specs.Prelude.{◌≡◌};
ghost use Rattle.day.specs.Day.{shown};
ghost use Rattle.loads.specs.Faults.{fault_of};
ghost use Rattle.loads.specs.Loads.{stripped, Led};

use super::faults::{LoadFault, RecordFault};
use day::RunningDay;
use sheet::strip::strip;

// Sets the seventeen tariffs of a strip in order, the branch's last. A refused one ends it, and those before it stay.
pub fn strip_onto(day: &mut RunningDay, bytes: &[u8]) -> Result<(), LoadFault>
    ensures load { stripped bytes.now (shown day.old) ≡ (shown day.new, fault_of result) }
    ensures calls { Led (shown day.old) (shown day.new) }
{
    let (tariffs, _) = strip(bytes)?;
    // As a zip with the numbers from 0 on it did not prove: nothing is known of what an open range gives.
    for (grid, fen) in tariffs.iter().enumerate() {
        let position = grid as u32;
        day.tariff(position, *fen)
            .map_err(|refusal| LoadFault::Record {
                fault: RecordFault::Market(refusal),
                position,
            })?;
    }
    Ok(())
}
