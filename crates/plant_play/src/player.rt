//! The player of the lines of a script.
ghost use Rattle.std.specs.Prelude.{◌≡◌, ◌≤◌, length, IfErr, IfOk};
ghost use Rattle.te_deltas.specs.ChangeText.{change_file_most};
ghost use Rattle.plant_play.specs.Playing.{IsNewNetwork, IsWhyNot, Played, cue, played_network};

use crate::PlayError;
use crate::events::Answer;
use crate::lines::{modes_after, play_line};
use crate::log::Log;
use crate::showing::Modes;
use dom_base::NoMemory;
use plant_network::Plant;
use plant_text::{LineEvent, Network, NetworkParts};
use std::alloc::Global;
use std::marker::Model;

/// A network whose events come as the lines of a script, and what its transcript shows of solved jobs.
pub struct Player {
    alloc: Global,
    plant: Plant,
    modes: Modes,
}

// Written, so that it is proved in this crate alone.
impl Drop for Player {
    fn drop(self) {
        let Player {
            alloc: _,
            plant: _,
            modes: _,
        } = self;
    }
}

impl Model for Player {
    ghost use Rattle.plant_play.specs.Playing.{Scene};

    ghost Value = { Scene };

    ghost use Rattle.plant_play.specs.PlayerFields.{scene_of};

    ghost view = { scene_of };
}

impl Player {
    /// A new network of these settings; nothing is shown of solved jobs.
    pub fn new(alloc: Global, network: Network) -> Result<Player, NoMemory>
        ensures { IfOk result (λ player. IsNewNetwork network (played_network player)) }
    {
        Ok(Player {
            alloc,
            plant: Plant::new(alloc, network)?,
            modes: Modes {
                certify: false,
                disclose: false,
            },
        })
    }

    /// The settings.
    pub fn parts(&self) -> &NetworkParts
        ensures { result.now ≡ (played_network self.now).network }
    {
        self.plant.parts()
    }

    /// The settings, as the value that was passed in.
    pub fn network(&self) -> &Network
        ensures { result.now ≡ (played_network self.now).network }
    {
        self.plant.network()
    }

    /// Plays a line of this number, and appends its transcript to a log; returns the answer of the line, and the log. `file`
    /// is the text of the file that the line names. After an error nothing is told, and the log is gone; where it is no
    /// fault of the file, what the line did up to there stays done. A file that is refused leaves the network as it was.
    /// `NoMemory` is also answered where there is no room to count more than 2^64 - 1 events of one line; where 2^47 messages
    /// stand in the queues between elements at most, and no id wraps around, fewer follow one another.
    pub fn play(
        &mut self,
        line: u32,
        event: LineEvent,
        file: &[u8],
        mut log: Log,
    ) -> Result<(Answer, Log), PlayError>
        requires { length file.now ≤ change_file_most }
        ensures plays { IfOk result (λ told. Played (cue line event file.now) (played_network self.old) told.0 (played_network self.new) log told.1) }
        ensures refused { IfErr result (IsWhyNot event file.now (played_network self.old) (played_network self.new)) }
    {
        let after = modes_after(&event, self.modes);
        let answer = play_line(
            self.alloc,
            &mut self.plant,
            self.modes,
            line,
            event,
            file,
            &mut log,
        )?;
        self.modes = after;
        Ok((answer, log))
    }
}
