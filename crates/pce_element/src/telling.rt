//! What an element does with notices and errors, which end requests one after the other.
ghost use Rattle.std.specs.Prelude.{◌≡◌, ◌++◌, ◌∷◌, [], IfOk, OnOk};
ghost use Rattle.pce_common.specs.plant_model.Element.{each, waiting};
ghost use Rattle.pce_common.specs.plant_model.Taking.{take_busy, take_cancel, take_errors, take_failure, take_notice, take_report};
ghost use Rattle.pce_element.specs.Changes.{IsDraft};
ghost use Rattle.pce_element.specs.Endings.{after, reached, failing, steps_of};
ghost use Rattle.pce_element.specs.Tellers.{Knows};

use crate::change::{Change, Draft, DraftIn};
use crate::element::Element;
use crate::pinned::Row;
use crate::tellers::Teller;
use crate::world::World;
use dom_base::{List, NoMemory, Peer};
use pce_common::model::{Output, Outputs};
use pce_common::{Ended, Told, busy, error_answer, notices_name_many, reports_name_many, told_by};
use pcep_messages::{ErrorReport, Message, Notice};
use std::alloc::Global;

/// Requests that are to end, and what is sent.
#[derive(Drop)]
pub(crate) struct Ending {
    pub numbers: Ended,
    pub outputs: Outputs,
}

impl Ending {
    fn new(alloc: Global, many: bool) -> Ending
        ensures numbers { result.numbers ≡ [] }
        ensures outputs { result.outputs ≡ [] }
    {
        Ending {
            numbers: Ended::new(alloc, many),
            outputs: List::new(alloc),
        }
    }

    // The asker of a request gets an answer, and the request ends.
    fn answer<P: Drop>(&mut self, row: &Row<'_, P>, message: Message) -> Result<(), NoMemory>
        ensures numbers { OnOk result (self.new.numbers ≡ self.old.numbers ++ row.now.number ∷ []) }
        ensures outputs { OnOk result (self.new.outputs ≡ self.old.outputs ++ (record { to = row.now.key.peer; message = message }) ∷ []) }
    {
        let to = row.key.peer;
        self.numbers.push(row.number)?;
        self.outputs.push(Output { to, message })
    }
}

impl<W: World> Element<W> {
    // The next has no room for a request.
    fn take_busy(
        &self,
        ending: &mut Ending,
        teller: &Teller,
        rp: (u32, u32),
    ) -> Result<(), NoMemory>
        requires { Knows self.now.losing.element.pending.rows teller.now }
        ensures { OnOk result (reached self.now.losing.element ending.new ≡ after (reached self.now.losing.element ending.old) (take_busy teller.now.peer rp)) }
    {
        let waiting = self.requests().still_waiting(teller, &ending.numbers, rp.1);
        let Some(row) = waiting else {
            return Ok(());
        };
        let message = busy(self.alloc, row.item.flags(), row.key.id)?;
        ending.answer(&row, message)
    }

    // A peer cancels its request.
    fn take_cancel(&self, ending: &mut Ending, peer: Peer, rp: (u32, u32)) -> Result<(), NoMemory>
        ensures { OnOk result (reached self.now.losing.element ending.new ≡ after (reached self.now.losing.element ending.old) (take_cancel peer rp)) }
    {
        let asked = self.requests().asked_still(&ending.numbers, peer, rp.1);
        match asked {
            Some(number) => ending.numbers.push(number),
            None => Ok(()),
        }
    }

    // The steps of one id of a notice.
    fn take_told(
        &self,
        ending: &mut Ending,
        teller: &Teller,
        told: Told,
        rp: (u32, u32),
    ) -> Result<(), NoMemory>
        requires { Knows self.now.losing.element.pending.rows teller.now }
        ensures { OnOk result (reached self.now.losing.element ending.new ≡ after (reached self.now.losing.element ending.old) (each (λ step. step teller.now.peer rp) (steps_of told))) }
    {
        if told.busy {
            self.take_busy(ending, teller, rp)?;
        }
        if told.cancelled {
            self.take_cancel(ending, teller.peer, rp)?;
        }
        Ok(())
    }

    fn take_notice(
        &self,
        ending: &mut Ending,
        teller: &Teller,
        notice: &Notice,
    ) -> Result<(), NoMemory>
        requires { Knows self.now.losing.element.pending.rows teller.now }
        ensures { OnOk result (reached self.now.losing.element ending.new ≡ after (reached self.now.losing.element ending.old) (take_notice teller.now.peer notice.now)) }
    {
        let told = told_by(notice.kinds.as_slice());
        for rp in notice.ids.as_slice() {
            self.take_told(ending, teller, told, *rp)?;
        }
        Ok(())
    }

    /// Notices of a peer.
    pub(crate) fn take_notices(
        &self,
        peer: Peer,
        notices: &[Notice],
    ) -> Result<DraftIn<W>, NoMemory>
        ensures { IfOk result (IsDraft self.now (each (take_notice peer) notices.now self.now.losing.element)) }
    {
        let many = notices_name_many(notices);
        let teller = self.requests().teller(self.alloc, peer, many)?;
        let mut ending = Ending::new(self.alloc, many);
        for notice in notices {
            self.take_notice(&mut ending, &teller, notice)?;
        }
        Ok(Draft {
            change: Change::Ends(ending.numbers.into_list()),
            outputs: ending.outputs,
        })
    }

    // An error of the next about a request that waits on it.
    fn take_failure(
        &self,
        ending: &mut Ending,
        teller: &Teller,
        error: (u8, u8),
        rp: (u32, u32),
    ) -> Result<(), NoMemory>
        requires { Knows self.now.losing.element.pending.rows teller.now }
        ensures { OnOk result (reached self.now.losing.element ending.new ≡ after (reached self.now.losing.element ending.old) (failing teller.now.peer error rp)) }
    {
        let waiting = self.requests().still_waiting(teller, &ending.numbers, rp.1);
        let Some(row) = waiting else {
            return Ok(());
        };
        match error_answer(self.alloc, error, row.item.flags(), row.key.id)? {
            Some(message) => ending.answer(&row, message),
            None => Ok(()),
        }
    }

    fn take_report(
        &self,
        ending: &mut Ending,
        teller: &Teller,
        report: &ErrorReport,
    ) -> Result<(), NoMemory>
        requires { Knows self.now.losing.element.pending.rows teller.now }
        ensures { OnOk result (reached self.now.losing.element ending.new ≡ after (reached self.now.losing.element ending.old) (take_report teller.now.peer report.now)) }
    {
        let Some(error) = report.errors.as_slice().first() else {
            return Ok(());
        };
        for rp in report.ids.as_slice() {
            self.take_failure(ending, teller, *error, *rp)?;
        }
        Ok(())
    }

    /// Errors that a peer reports.
    pub(crate) fn take_reports(
        &self,
        peer: Peer,
        reports: &[ErrorReport],
    ) -> Result<DraftIn<W>, NoMemory>
        ensures { IfOk result (IsDraft self.now (each (take_report peer) reports.now self.now.losing.element)) }
    {
        let many = reports_name_many(reports);
        let teller = self.requests().teller(self.alloc, peer, many)?;
        let mut ending = Ending::new(self.alloc, many);
        for report in reports {
            self.take_report(&mut ending, &teller, report)?;
        }
        Ok(Draft {
            change: Change::Ends(ending.numbers.into_list()),
            outputs: ending.outputs,
        })
    }
}
