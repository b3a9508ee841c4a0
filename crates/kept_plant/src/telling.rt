//! A load is told.
ghost use Rattle.std.specs.Prelude.{Some};
ghost use Rattle.plant_network.specs.Topologies.{whole};
ghost use Rattle.plant_network.specs.plant_model.declared.event.Event.TheVariants.{Load};
ghost use Rattle.kept_plant.specs.Tellings.{Folds};

use dom_base::As;
use event_tape::{Tape, TapeEnd, Told};
use plant_network::Plant;

/// Tells that an element loaded the topology that is its current one: behind that load, before others of it. Without memory for it the
/// tape ends.
pub fn tell_load(plant: &Plant, tape: &mut Tape, at: As)
    ensures { Folds (Some (Load at ((whole plant.now).state.current at).topology)) tape.old tape.new }
{
    match plant.topology(at) {
        Ok(Some((_number, topology))) => tape.push(Told::Load(at, topology)),
        _ => tape.end(TapeEnd::NoMemory),
    }
}
