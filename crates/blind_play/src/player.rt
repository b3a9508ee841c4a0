//! The player of the lines of a script on a network without topologies.
ghost use Rattle.std.specs.Prelude.{◌≡◌, IfOk};
ghost use Rattle.run_laws.specs.Given.{IsBlindLine};
ghost use Rattle.blind_play.specs.Playing.{IsNewNetwork, Played, cue, played_network};

use crate::lines::play_line;
use dom_base::NoMemory;
use plant_network::BlindPlant;
use plant_text::{LineEvent, Network, NetworkParts};
use std::alloc::Global;
use std::marker::Model;

/// A network without topologies, whose events come as the lines of a script.
#[derive(Drop)]
pub struct BlindPlayer {
    alloc: Global,
    plant: BlindPlant,
}

impl Model for BlindPlayer {
    ghost use Rattle.plant_network.specs.Blind.{Held};

    ghost Value = { Held };

    ghost view = { λ a. a.plant };
}

impl BlindPlayer {
    /// A new network of these settings.
    pub fn new(alloc: Global, network: Network) -> Result<BlindPlayer, NoMemory>
        ensures { IfOk result (λ player. IsNewNetwork network (played_network player)) }
    {
        Ok(BlindPlayer {
            alloc,
            plant: BlindPlant::new(alloc, network)?,
        })
    }

    /// The settings.
    pub fn parts(&self) -> &NetworkParts
        ensures { result.now ≡ (played_network self.now).network }
    {
        self.plant.parts()
    }

    /// The settings, as the value that was passed in.
    pub fn network(&self) -> &Network
        ensures { result.now ≡ (played_network self.now).network }
    {
        self.plant.network()
    }

    /// Plays a line of this number; returns what closed peers hear of it: messages to them, and what they drain. After an
    /// error nothing is told, and what the line did up to there stays done.
    pub fn play(&mut self, line: u32, event: LineEvent) -> Result<Vec<u8>, NoMemory>
        requires { IsBlindLine event }
        ensures { IfOk result (λ told. Played (cue line event) (played_network self.old) told.items (played_network self.new)) }
    {
        let mut text = Vec::new(self.alloc);
        play_line(self.alloc, &mut self.plant, line, event, &mut text)?;
        Ok(text)
    }
}
