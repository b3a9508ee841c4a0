//! Requests that end one after the other.
ghost use Rattle.std.specs.Prelude.{◌≡◌, ℕ, [], None, Some, IfOk, OnOk};
ghost use Rattle.pce_common.specs.plant_model.Taking.{error_answer};
ghost use Rattle.pce_common.specs.plant_model.Parent.{Parent as Whole, answered, ended, silent};
ghost use Rattle.pce_parent.specs.Changes.{IsDraft, all_ended};
ghost use Rattle.pce_parent.specs.Endings.{GoesOn};
ghost use Rattle.pce_parent.specs.Pendings.{row_of};

use crate::change::{Change, Draft};
use crate::pending::Row;
use dom_base::{List, NoMemory};
use pce_common::model::{Output, Outputs};
use pcep_messages::Message;
use std::alloc::Global;

/// The numbers of the requests that end, in order, and what is said of them.
#[derive(Drop)]
pub struct Ending {
    numbers: Vec<u64>,
    outputs: Outputs,
}

impl Ending {
    /// Nothing ends, and nothing is said.
    pub fn new(alloc: Global) -> Ending
        ensures numbers { result.numbers.items ≡ [] }
        ensures outputs { result.outputs ≡ [] }
    {
        Ending {
            numbers: Vec::new(alloc),
            outputs: List::new(alloc),
        }
    }

    /// The numbers of the requests that end, in the order in which they were found.
    pub fn numbers(&self) -> &[u64]
        ensures { result.now ≡ self.now.numbers.items }
    {
        &self.numbers
    }

    /// A request ends, and nothing is said.
    pub fn end(&mut self, number: u64) -> Result<(), NoMemory>
        ensures { OnOk result ((k : Whole) → GoesOn k (λ k. silent (ended number k)) self.old self.new) }
    {
        self.numbers.push(number)?;
        Ok(())
    }

    /// The asker of a request gets an answer, and the request ends.
    pub fn answer(&mut self, row: Row<'_>, message: Message) -> Result<(), NoMemory>
        ensures { OnOk result ((k : Whole) → GoesOn k (answered (row_of row.entry) message) self.old self.new) }
    {
        self.numbers.push(row.number)?;
        self.outputs.push(Output {
            to: row.key.peer,
            message,
        })?;
        Ok(())
    }

    /// The change that it makes.
    pub fn into_draft(self) -> Draft
        ensures change { result.change ≡ Change.Ends self.numbers.items }
        ensures outputs { result.outputs ≡ self.outputs }
    {
        Draft {
            change: Change::Ends(List::from_vec(self.numbers)),
            outputs: self.outputs,
        }
    }
}
