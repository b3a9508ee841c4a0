//! What peers tell of requests: notices and errors.
ghost use Rattle.std.specs.Prelude.{◌≡◌, IfOk, OnOk};
ghost use Rattle.pce_common.specs.plant_model.Parent.{each, waiting, take_busy, take_cancel, take_failure, take_notice, take_report};
ghost use Rattle.pce_parent.specs.Changes.{IsDraft};
ghost use Rattle.pce_parent.specs.Endings.{GoesOn, steps_of};
ghost use Rattle.pce_parent.specs.Tellers.{Knows};

use crate::change::Draft;
use crate::ending::Ending;
use crate::parent::Parent;
use crate::sought::{Sought, find};
use crate::tellers::{Teller, find_waiting, teller_of};
use dom_base::{NoMemory, Peer};
use pce_common::{Told, busy, error_answer, notices_name_many, reports_name_many, told_by};
use pcep_messages::{ErrorReport, Notice};

impl Parent {
    // A child has no room.
    fn tell_busy(
        &self,
        ending: &mut Ending,
        teller: &Teller,
        rp: (u32, u32),
    ) -> Result<(), NoMemory>
        requires { Knows self.now.losing.parent.pending.rows teller.now }
        ensures { OnOk result (GoesOn self.now.losing.parent (take_busy teller.now.peer rp) ending.old ending.new) }
    {
        let Some(row) = find_waiting(&self.requests, ending.numbers(), teller, rp.1) else {
            return Ok(());
        };
        let message = busy(self.alloc, row.item.flags(), row.key.id)?;
        ending.answer(row, message)
    }

    // A child takes its request back.
    fn cancel(&self, ending: &mut Ending, peer: Peer, rp: (u32, u32)) -> Result<(), NoMemory>
        ensures { OnOk result (GoesOn self.now.losing.parent (take_cancel peer rp) ending.old ending.new) }
    {
        let sought = Sought::Asked(peer, rp.1);
        let Some(row) = find(&self.requests, ending.numbers(), sought) else {
            return Ok(());
        };
        ending.end(row.number)
    }

    // A notice about one id.
    fn notify(
        &self,
        ending: &mut Ending,
        teller: &Teller,
        rp: (u32, u32),
        told: Told,
    ) -> Result<(), NoMemory>
        requires { Knows self.now.losing.parent.pending.rows teller.now }
        ensures { OnOk result (GoesOn self.now.losing.parent (each (λ step. step teller.now.peer rp) (steps_of told)) ending.old ending.new) }
    {
        if told.busy {
            self.tell_busy(ending, teller, rp)?;
        }
        if told.cancelled {
            self.cancel(ending, teller.peer, rp)?;
        }
        Ok(())
    }

    fn take_notice(
        &self,
        ending: &mut Ending,
        teller: &Teller,
        notice: &Notice,
    ) -> Result<(), NoMemory>
        requires { Knows self.now.losing.parent.pending.rows teller.now }
        ensures { OnOk result (GoesOn self.now.losing.parent (take_notice teller.now.peer notice.now) ending.old ending.new) }
    {
        let told = told_by(notice.kinds.as_slice());
        for rp in notice.ids.as_slice() {
            self.notify(ending, teller, *rp, told)?;
        }
        Ok(())
    }

    /// Notices of a peer.
    pub(crate) fn take_notices(&self, peer: Peer, notices: &[Notice]) -> Result<Draft, NoMemory>
        ensures { IfOk result (IsDraft self.now (each (take_notice peer) notices.now self.now.losing.parent)) }
    {
        let many = notices_name_many(notices);
        let teller = teller_of(self.alloc, &self.requests, peer, many)?;
        let mut ending = Ending::new(self.alloc);
        for notice in notices {
            self.take_notice(&mut ending, &teller, notice)?;
        }
        Ok(ending.into_draft())
    }

    // An error of one id.
    fn fail(
        &self,
        ending: &mut Ending,
        teller: &Teller,
        rp: (u32, u32),
        error: (u8, u8),
    ) -> Result<(), NoMemory>
        requires { Knows self.now.losing.parent.pending.rows teller.now }
        ensures { OnOk result (GoesOn self.now.losing.parent (λ k. take_failure error k (waiting teller.now.peer rp.1 k.pending.rows)) ending.old ending.new) }
    {
        let Some(row) = find_waiting(&self.requests, ending.numbers(), teller, rp.1) else {
            return Ok(());
        };
        match error_answer(self.alloc, error, row.item.flags(), row.key.id)? {
            None => Ok(()),
            Some(message) => ending.answer(row, message),
        }
    }

    fn take_report(
        &self,
        ending: &mut Ending,
        teller: &Teller,
        report: &ErrorReport,
    ) -> Result<(), NoMemory>
        requires { Knows self.now.losing.parent.pending.rows teller.now }
        ensures { OnOk result (GoesOn self.now.losing.parent (take_report teller.now.peer report.now) ending.old ending.new) }
    {
        let Some(error) = report.errors.as_slice().first() else {
            return Ok(());
        };
        for rp in report.ids.as_slice() {
            self.fail(ending, teller, *rp, *error)?;
        }
        Ok(())
    }

    /// Errors that a peer reports.
    pub(crate) fn take_reports(
        &self,
        peer: Peer,
        reports: &[ErrorReport],
    ) -> Result<Draft, NoMemory>
        ensures { IfOk result (IsDraft self.now (each (take_report peer) reports.now self.now.losing.parent)) }
    {
        let many = reports_name_many(reports);
        let teller = teller_of(self.alloc, &self.requests, peer, many)?;
        let mut ending = Ending::new(self.alloc);
        for report in reports {
            self.take_report(&mut ending, &teller, report)?;
        }
        Ok(ending.into_draft())
    }
}
