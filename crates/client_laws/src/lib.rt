//! What holds for every script that is played, and what a client of a network asks and is told: its own questions, and the answers that were
//! sent to it. Laws, as the contracts of calls that do nothing.
#![tactic(auto)]

ghost use Rattle.client_laws.specs.Answered.{QuestionIsAnswered, QuestionIsTaken, QuestionsAreRead};
ghost use Rattle.client_laws.specs.Asked.{OneIsAsked};
ghost use Rattle.client_laws.specs.Ended.{AnswerIsTold};
ghost use Rattle.client_laws.specs.Received.{ManyAreReceived};
ghost use Rattle.client_laws.specs.Resting.{AskedIsAtRest, AskedIsQuiet, FinishedIsAtRest, LinesTakeAll};
ghost use Rattle.client_laws.specs.Served.{TakenIsOpen, TakenIsServed};
ghost use Rattle.client_laws.specs.Told.{ClientsAreTold};

mod scripts;

pub use scripts::{
    lines_go_on, runs_are_loadable, runs_disclose, scripts_are_right, scripts_are_runs,
    shown_is_disclosed,
};

/// Where a client asks once, its connection is open at the end, it receives all that was put there for it, and it is told what
/// the last of these messages answers; and each answer among them, to a request for a path, is one that the laws of a network speak of.
/// Where a parent asks, this supposes that no id wraps around.
pub fn clients_are_told()
    ensures { ClientsAreTold }
{}

/// Where a client asks once, each request that an element has from it is its question, as that element reads it: with its number, ends
/// and sequence. So each answer to it, which is about a request that was delivered, is about the question that was asked.
pub fn one_is_asked()
    ensures { OneIsAsked }
{}

/// Where a client asks one question behind the other in a run, it receives for each what was put there for it since the one before, all
/// of it; what is heard of that is what the last of these messages says; and each answer among them to a request for a path is one that
/// the laws of a network speak of.
pub fn many_are_received()
    ensures { ManyAreReceived }
{}

/// Between the lines of a script without `receive` all that was fed was taken; and where all was taken before a line `finish`, the network
/// is at rest after it: no message is on its way along a link, and no job can be solved. So it is where a client has asked once, and then
/// it is quiet: nothing stands elsewhere either.
pub fn finished_is_at_rest()
    ensures taken { LinesTakeAll }
    ensures rest { FinishedIsAtRest }
    ensures asked { AskedIsAtRest }
    ensures quiet { AskedIsQuiet }
{}

/// Each request for a path that is taken and admitted is answered by the deed that took it, or is open from then on; and in a quiet
/// state it was answered so, or had its one answer by what ended it, or was dropped, as its peer cancelled it or went down,
/// or waits for an outside peer that was asked on its way.
pub fn taken_is_served()
    ensures opens { TakenIsOpen }
    ensures served { TakenIsServed }
{}

/// Where a client asks once, its session comes up and does not end, so that its question is taken by its element and not dropped.
/// It is read as a request for a path under its number, or refused under that; and where no id wraps around it has an answer: its
/// element answers it, or refuses it, or it waits for an outside peer that was asked on its way.
pub fn question_is_answered()
    ensures read { QuestionsAreRead }
    ensures taken { QuestionIsTaken }
    ensures answered { QuestionIsAnswered }
{}

/// Where a client asks once, no id wraps around and paths go on through no outside peer, the last message that was put for the client is
/// the answer to its question, so nothing is said to it behind that. It is told what that answer says, and that is not nothing: a
/// path has its cost, and each other answer a line.
pub fn answer_is_told()
    ensures { AnswerIsTold }
{}
