//! Networks: settings that obey the rules.
ghost use Rattle.std.specs.Prelude.{◌≡◌, ◌<◌, ◌-◌, ◌^◌, true, false, Err, IfOk, OnOk, length};
ghost use Rattle.plant_text.specs.declared.fault.NetFault.{NetFault};
ghost use Rattle.plant_text.specs.declared.fault.NetFault.TheVariants.{NoElement};
ghost use Rattle.plant_text.specs.Faults.{AreObeyed, IsFirst, Tells};
ghost use Rattle.plant_text.specs.Networks.{ObeysRules, path_client, with_path};
ghost use Rattle.plant_text.specs.Rules.{no_cuts, rules as rules_of_sheet, rules_of, sheet_of};
ghost use Rattle.plant_text.specs.Settings.{is_element as has_element};

use crate::check::check;
use crate::fault::{NetError, NetFault};
use crate::row::is_element;
use crate::settings::{Comes, NetworkParts, PeerRow};
use crate::sheet::{Cuts, Sheet};
use disclosure::Class;
use dom_base::{As, NoMemory, Text};
use std::alloc::Global;
use std::marker::Model;

/// The port at which an element listens for sessions, where none is named (RFC 5440, section 9.1).
pub(crate) const PORT: u16 = 4189;

/// The settings of a network, which obey the rules.
pub struct Network {
    parts: NetworkParts,
    // how many peers were given; clients that were added stand behind them
    given: usize,
}

// Written, so that it is proved once: a derived one is proved anew in each crate that drops a value.
impl Drop for Network {
    fn drop(self) {
        let Network { parts: _, given: _ } = self;
    }
}

impl Model for Network {
    ghost use Rattle.plant_text.specs.declared.settings.NetworkParts.{NetworkParts};

    ghost Value = { NetworkParts };

    ghost use Rattle.plant_text.specs.Fields.{parts_of, HoldsRules};

    ghost view = { parts_of };

    ghost invariant = { HoldsRules };
}

impl Sheet {
    // Settings without a text.
    fn of(parts: NetworkParts) -> Sheet
        ensures { result ≡ sheet_of parts }
    {
        Sheet {
            parts,
            cuts: Cuts {
                elements: None,
                links: None,
                peers: None,
                deny: None,
                parent: false,
                no_parent: false,
                parent_links: None,
                workers: false,
                watch: false,
            },
            other: None,
        }
    }
}

fn path_client_at(alloc: Global, at: As) -> Result<PeerRow, NoMemory>
    ensures { IfOk result (λ p. p ≡ path_client at) }
{
    Ok(PeerRow {
        name: Text::copy_of(alloc, "path")?,
        at,
        class: Class::Client { expand: true },
        port: PORT,
        comes: Comes::Anyone,
        down: false,
        patience: None,
        pending: None,
        keys: None,
        capability: false,
    })
}

// The client `path` of an element, behind all peers.
fn add_client(alloc: Global, parts: &mut NetworkParts, at: As) -> Result<(), NetError>
    ensures added { OnOk result (parts.new ≡ with_path parts.old at) }
    ensures room { OnOk result (length parts.old.peers < 2 ^ 32 - 1) }
    ensures element { OnOk result (has_element parts.old at ≡ true) }
    ensures no_element { has_element parts.old at ≡ false → result ≡ Err (NetError.Fault NoElement) }
    ensures refused { (fault : NetFault) → result ≡ Err (NetError.Fault fault) → (fault ≡ NoElement) × (has_element parts.old at ≡ false) }
{
    if !is_element(parts.elements.as_slice(), at) {
        return Err(NetError::Fault(NetFault::NoElement));
    }
    if parts.peers.len() >= u32::MAX as usize {
        return Err(NetError::NoMemory);
    }
    let client = path_client_at(alloc, at)?;
    parts.peers.push(client)?;
    Ok(())
}

impl Network {
    // The network of a sheet that obeys the rules.
    pub(crate) fn of_sheet(alloc: Global, sheet: Sheet) -> Result<Network, NetError>
        ensures same { IfOk result (λ n. n ≡ sheet.parts) }
        ensures tells { Tells (rules_of_sheet sheet) result }
    {
        check(alloc, &sheet)?;
        let Sheet {
            parts,
            cuts: _cuts,
            other: _other,
        } = sheet;
        let given = parts.peers.len();
        Ok(Network { parts, given })
    }

    /// The network with these settings, where they obey the rules: else the first rule that is broken. The tables
    /// are tested in the order of the fields of `NetworkParts`, their rows in the given order; of a row the tests are,
    /// in this order, the number of rows, its form, whether it repeats an earlier one, and whether what it names exists.
    pub fn build(alloc: Global, parts: NetworkParts) -> Result<Network, NetError>
        ensures same { IfOk result (λ n. n ≡ parts) }
        ensures obeyed { OnOk result (AreObeyed (rules_of parts)) }
        ensures refused { (fault : NetFault) → result ≡ Err (NetError.Fault fault) → IsFirst (rules_of parts) fault }
    {
        Network::of_sheet(alloc, Sheet::of(parts))
    }

    /// The settings.
    pub fn parts(&self) -> &NetworkParts
        ensures parts { result.now ≡ self.now }
        ensures rules { ObeysRules self.now }
    {
        &self.parts
    }

    /// The same network with one more outside peer: the client `path` of an element, which may have keys expanded.
    /// It counts for no limit and no rule of names.
    pub fn with_client(self, alloc: Global, at: As) -> Result<Network, NetError>
        ensures added { IfOk result (λ n. n ≡ with_path self at) }
        ensures element { OnOk result (has_element self at ≡ true) }
        ensures no_element { has_element self at ≡ false → result ≡ Err (NetError.Fault NoElement) }
        ensures refused { (fault : NetFault) → result ≡ Err (NetError.Fault fault) → (fault ≡ NoElement) × (has_element self at ≡ false) }
    {
        let Network { mut parts, given } = self;
        add_client(alloc, &mut parts, at)?;
        Ok(Network { parts, given })
    }
}
