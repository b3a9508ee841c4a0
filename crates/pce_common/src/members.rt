//! The trait of the elements of a network and their parent.
ghost use Rattle.std.specs.Prelude.{◌≡◌, ◌≤◌, ℕ, true, List, [], ◌∷◌, IfOk};
ghost use Rattle.dom_base.specs.declared.names.As.{As};
ghost use Rattle.pcep_subobjects.specs.declared.hop.Hop.{Hop};
ghost use Rattle.plant_text.specs.Settings.{elements_of};
ghost use Rattle.plant_model.specs.declared.output.Output.{Output};
ghost use Rattle.plant_model.specs.Names.{set_as};
ghost use Rattle.plant_model.specs.RealWire.{wire};
ghost use Rattle.plant_model.specs.Deeds as deeds;
ghost use Rattle.pce_common.specs.Membership.{Membership, is_member, given, heard, raised, fallen, lost_at, expired, KeysBefore, HandsOut, Standing};
ghost use Rattle.pce_common.specs.Owed.{owed, pending_in};

use dom_base::{As, NoMemory, Peer, Tick};
use pcep_messages::Message;
use plant_model::{Lost, Outputs};

/// The elements of a network and their parent. They know no queue: what they send is handed out.
pub trait Members {
    /// What a message changes in a member, before the change is made.
    type Plan: Drop;

    // What a pin is, what a key stands for, what of that is shown, and where the members stand.
    ghost Pin: { Type 0 };

    ghost Key: { Type 0 };

    ghost show: { Key → List Hop };

    ghost stands: { Self → Standing Pin Key };

    // The plan is one of these members as they stand.
    ghost fits: { Self → Self.Plan → Type 0 };

    ghost next: { Self → Self.Plan → Membership Pin Key };

    ghost sends: { Self.Plan → List Output };

    /// Plans what a message of a peer changes in a member; nothing changes yet. It fails only when out of
    /// memory.
    fn take(
        &mut self,
        at: As,
        peer: Peer,
        message: Message,
        now: Tick,
    ) -> Result<Self::Plan, NoMemory>
        requires { is_member (stands self.old).network at ≡ true }
        ensures same { stands self.new ≡ stands self.old }
        ensures fits { IfOk result (λ plan. fits self.new plan) }
        ensures next { IfOk result (λ plan. next self.new plan ≡ (given wire (stands self.old).network show at peer now.0 message (stands self.old).seen).members) }
        ensures sends { IfOk result (λ plan. sends plan ≡ (given wire (stands self.old).network show at peer now.0 message (stands self.old).seen).outputs) };

    /// What an element is given of a message of an outside peer: of a reply to what it asked there, what sifting
    /// keeps; any other message as it came. It fails only when out of memory.
    fn heed(&self, at: As, peer: u32, message: Message) -> Result<Message, NoMemory>
        ensures heard { IfOk result (λ heeded. heeded ≡ heard wire at peer message (stands self.now).seen) };

    /// What a plan sends.
    fn outputs(plan: &Self::Plan) -> &Outputs
        ensures { result.now ≡ sends plan.now };

    /// Makes a plan; takes no memory.
    fn make(&mut self, plan: Self::Plan)
        requires { fits self.old plan }
        ensures { stands self.new ≡ record (stands self.old) { seen = next self.old plan } };

    /// A session of a member comes up; takes no memory.
    fn up(&mut self, at: As, peer: Peer)
        requires { is_member (stands self.old).network at ≡ true }
        ensures { stands self.new ≡ record (stands self.old) { seen = raised at peer (stands self.old).seen } };

    /// A session of a member goes down; takes no memory. Its lost requests are handed out by `next_lost`.
    fn down(&mut self, at: As, peer: Peer)
        requires member { is_member (stands self.old).network at ≡ true }
        requires none { (stands self.old).lost at ≡ [] }
        ensures { stands self.new ≡ record (stands self.old) { seen = fallen at peer (stands self.old).seen; lost = set_as at (lost_at at peer (stands self.old).seen) (stands self.old).lost } };

    /// Hands out the first lost request of a member; takes no memory.
    fn next_lost(&mut self, at: As) -> Option<Lost>
        requires { is_member (stands self.old).network at ≡ true }
        ensures same { stands self.new ≡ record (stands self.old) { lost = (stands self.new).lost } }
        ensures lost { HandsOut at (stands self.old).lost result (stands self.new).lost };

    /// The moment, which never falls: keys expire; takes no memory.
    fn tick(&mut self, now: Tick)
        requires { KeysBefore now.0 (stands self.old).network (stands self.old).seen }
        ensures { stands self.new ≡ record (stands self.old) { seen = expired now.0 (stands self.old).seen } };

    /// How many requests of a peer are pending at a member; takes no memory.
    fn owed(&self, at: As, peer: Peer) -> usize
        requires { is_member (stands self.now).network at ≡ true }
        ensures { result ≡ owed at peer (stands self.now).seen };

    /// How many requests are pending at all members; takes no memory.
    fn pending(&self) -> usize
        ensures { result ≡ pending_in (elements_of (stands self.now).network.elements) (stands self.now).seen };

    /// The element of an outside peer.
    fn element_of(&self, peer: u32) -> As
        ensures { result ≡ deeds.element_of (stands self.now).network peer };
}
