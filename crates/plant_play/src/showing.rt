//! The transcript of an event behind its answer: its messages, and what is shown of the job that it solved.
ghost use Rattle.std.specs.Prelude.{◌≡◌, ◌&&◌, ◌||◌, cond, None, Some, IfOk, IfSome, OnOk};
ghost use Rattle.path_certificate.specs.declared.certificate.Certificate.{Certificate as Certified};
ghost use Rattle.dom_base.specs.declared.border.BorderRow.{BorderRow};
ghost use Rattle.plant_text.specs.Settings.{class_from, peer_row};
ghost use Rattle.plant_network.specs.plant_model.Element.{is_client};
ghost use Rattle.plant_network.specs.Topologies.{whole};
ghost use Rattle.transcript.specs.Lines.{rows_text};
ghost use Rattle.plant_play.specs.Logs.{behind, untold};
ghost use Rattle.plant_play.specs.Making.{Brings, IsToShow, LabelsIf, Shown, Tables, TablesIf, closed_among, shows_any};
ghost use Rattle.plant_play.specs.Turns.{certificate_text, tells_closed};

use crate::log::{Log, write_certified, write_log, write_rows, write_said};
use border_costs::{Job, border_table};
use disclosure::Class;
use dom_base::{NoMemory, Peer};
use path_certificate::Certificate;
use plant_network::model::{Event, Outcome, Refused};
use plant_network::{Plant, Work};
use plant_text::PeerRow;
use std::alloc::Global;

/// What is shown of a domain's job that was solved.
#[derive(Clone, Copy)]
pub struct Modes {
    /// The certificate.
    pub certify: bool,
    /// The rows that are disclosed.
    pub disclose: bool,
}

fn shows_any(modes: Modes) -> bool
    ensures { result ≡ shows_any modes }
{
    modes.certify || modes.disclose
}

/// The job of a domain that an event is about to solve, where something of it is to be shown.
pub(crate) fn job_to_show(
    plant: &Plant,
    modes: Modes,
    event: &Event,
) -> Result<Option<Job>, NoMemory>
    ensures { IfOk result (IsToShow modes (whole plant.now) event.now) }
{
    if !shows_any(modes) {
        return Ok(None);
    }
    let Event::Solve(at, number) = event else {
        return Ok(None);
    };
    match plant.job(*at, *number)? {
        Some(Work::Domain(job)) => Ok(Some(job)),
        _other => Ok(None),
    }
}

fn is_client(class: Class) -> bool
    ensures { result ≡ is_client class }
{
    match class {
        Class::Client { .. } => true,
        Class::Neighbour(_) | Class::Parent => false,
    }
}

// Whether a peer is closed: an outside peer that is no client, or an element or the parent.
fn is_closed(peers: &[PeerRow], peer: Peer) -> bool
    ensures { result ≡ closed_among peers.now peer }
{
    let Peer::Outside(number) = peer else {
        return true;
    };
    match peers.get(number as usize) {
        Some(row) => !is_client(row.class),
        None => false,
    }
}

// Whether the first message of the last event goes to a closed peer.
fn tells_closed(plant: &Plant) -> bool
    ensures { result ≡ tells_closed (whole plant.now).network (whole plant.now).said }
{
    let said = plant.said();
    if said.is_empty() {
        return false;
    }
    let (_from, to) = said.way(0);
    is_closed(plant.parts().peers.as_slice(), to)
}

fn write_table(alloc: Global, line: u32, job: &Job, into: &mut Log) -> Result<(), NoMemory>
    ensures { OnOk result (Tables line job.now into.old into.new) }
{
    let rows = border_table(alloc, job)?;
    write_rows(line, rows.as_slice(), into)
}

// The border table, where it is shown.
fn write_table_if(
    alloc: Global,
    line: u32,
    shown: bool,
    job: &Job,
    into: &mut Log,
) -> Result<(), NoMemory>
    ensures { OnOk result (TablesIf line shown job.now into.old into.new) }
{
    if shown {
        write_table(alloc, line, job, into)
    } else {
        Ok(())
    }
}

/// The labels of a job that was solved, where they are shown.
pub(crate) fn write_labels_if(
    line: u32,
    shown: bool,
    certificate: &Certificate,
    into: &mut Log,
) -> Result<(), NoMemory>
    ensures { OnOk result (into.new ≡ behind into.old (certificate_text line (cond shown (Some certificate.now) None))) }
{
    if shown {
        write_certified(line, certificate, into)
    } else {
        Ok(())
    }
}

// What is shown of a job that was solved: its border table, and the labels that were told in a second log.
fn write_shown(
    alloc: Global,
    line: u32,
    modes: Modes,
    closed: bool,
    job: &Job,
    labels: &Log,
    into: &mut Log,
) -> Result<(), NoMemory>
    requires { LabelsIf line modes.certify job.now (untold into.old.is_kept) labels.now }
    ensures { OnOk result (Shown line modes closed job.now into.old into.new) }
{
    write_table_if(alloc, line, modes.disclose && closed, job, into)?;
    write_log(labels, into)?;
    Ok(())
}

/// What an accepted event brought about: its messages, and what is shown of the job that it solved, whose labels were
/// told in a second log. A refused one brings about nothing.
pub(crate) fn write_brought(
    alloc: Global,
    line: u32,
    plant: &Plant,
    modes: Modes,
    answer: &Result<Outcome, Refused>,
    job: &Option<Job>,
    labels: &Log,
    into: &mut Log,
) -> Result<(), NoMemory>
    requires { IfSome job.now (λ j. LabelsIf line modes.certify j (untold into.old.is_kept) labels.now) }
    ensures { OnOk result (Brings line modes (whole plant.now) answer.now job.now into.old into.new) }
{
    if answer.is_err() {
        return Ok(());
    }
    write_said(
        alloc,
        line,
        plant.parts().peers.as_slice(),
        plant.said(),
        into,
    )?;
    match job {
        Some(job) => {
            write_shown(alloc, line, modes, tells_closed(plant), job, labels, into)?;
            Ok(())
        }
        None => Ok(()),
    }
}
