//! The forms of the rows of a settings text.
ghost use Rattle.std.specs.Prelude.{◌≡◌, None, Some, codes, nat_lt, option_map};
ghost use Rattle.toml.specs.Data.{get_member};
ghost use Rattle.toml.specs.View.{items_view, table_view, view};
ghost use Rattle.plant_text.specs.Given.{Gives};
ghost use Rattle.plant_text.specs.SettingsText.{class_in, class_of, ends_in, file_of, has_many, item_count, link_in, optional, comes_in, comes_of as comes_of_values};

use crate::fault::Breach;
use crate::line::LineError;
use crate::network::PORT;
use crate::settings::{Comes, DenyRow, ElementRow, PeerRow};
use crate::value::{
    addr_at, addr_in, as_at, as_of_value, bool_or, colour_at, is_one_of, numbers_or_none, text_at,
    value_at, whole_at, whole_or,
};
use disclosure::{Class, Deny};
use dom_base::{Addr, As, Link, ParentLink, Text};
use std::alloc::Global;
use te_links::SRLGS_MAX;
use toml::{Table, Value};

/// How many ticks keys live, where the settings do not say.
const KEY_LIFE: u64 = 600;

/// A row as a table of a settings text gives it.
pub(crate) trait Formed: Sized {
    ghost use Rattle.plant_text.specs.SettingsText.{Form};

    ghost form: { Form Self };

    /// Whether such a table may have a key.
    fn is_key(key: &str) -> bool
        ensures { result ≡ form.is_key key.now };

    /// The row, of a table without other keys.
    fn read(alloc: Global, table: &Table) -> Result<Self, LineError>
        ensures { Gives result (form.read (table_view table.now)) };

    /// The breach of a table that gives no row.
    fn wrong(table: &Table) -> Breach
        ensures { result ≡ form.wrong (table_view table.now) };
}

// ---- elements

// The file of a topology, where one is named.
fn file_or_none(alloc: Global, table: &Table) -> Result<Option<Text>, LineError>
    ensures { Gives result (optional file_of None (codes "topology") (table_view table.now)) }
{
    let Some(value) = value_at(table, "topology") else {
        return Ok(None);
    };
    let Some(name) = value.as_str() else {
        return Err(LineError::Outside);
    };
    Ok(Some(Text::copy_of(alloc, name)?))
}

impl Formed for ElementRow {
    ghost use Rattle.plant_text.specs.SettingsText.{element_form};

    ghost form = { element_form };

    fn is_key(key: &str) -> bool {
        is_one_of(key, &["as", "id", "topology", "key_life", "parent"])
    }

    #[tactic(auto, unfolding(crate::specs::SettingsText::element_of))]
    fn read(alloc: Global, table: &Table) -> Result<ElementRow, LineError> {
        let Some(own) = as_at(table, "as") else {
            return Err(LineError::Outside);
        };
        let Some(id) = addr_at(table, "id") else {
            return Err(LineError::Outside);
        };
        let Some(key_life) = whole_or(table, "key_life", u64::from(u16::MAX), KEY_LIFE) else {
            return Err(LineError::Outside);
        };
        let Some(parent) = bool_or(table, "parent", false) else {
            return Err(LineError::Outside);
        };
        let topology = file_or_none(alloc, table)?;
        Ok(ElementRow {
            own,
            id,
            topology,
            key_life: key_life as u16,
            parent,
        })
    }

    fn wrong(_table: &Table) -> Breach {
        Breach::Shape
    }
}

// ---- links

impl Formed for (As, As) {
    ghost use Rattle.plant_text.specs.SettingsText.{link_form};

    ghost form = { link_form };

    fn is_key(key: &str) -> bool {
        is_one_of(key, &["a", "b"])
    }

    #[tactic(auto, unfolding(crate::specs::SettingsText::link_of))]
    fn read(_alloc: Global, table: &Table) -> Result<(As, As), LineError> {
        let Some(a) = as_at(table, "a") else {
            return Err(LineError::Outside);
        };
        let Some(b) = as_at(table, "b") else {
            return Err(LineError::Outside);
        };
        Ok((a, b))
    }

    fn wrong(_table: &Table) -> Breach {
        Breach::Shape
    }
}

// ---- peers

// The class of this name, with the value of `neighbour`, which is there exactly with that class.
fn class_named(word: &str, expand: bool, neighbour: Option<&Value>) -> Option<Class>
    ensures { result ≡ class_of word.now expand (option_map (λ v. view v.now) neighbour.entry) }
{
    match neighbour {
        Some(value) => {
            if word == "neighbour" {
                Some(Class::Neighbour(as_of_value(value)?))
            } else {
                None
            }
        }
        None => {
            if word == "client" {
                Some(Class::Client { expand })
            } else if word == "parent" {
                Some(Class::Parent)
            } else {
                None
            }
        }
    }
}

fn class_at(table: &Table) -> Option<Class>
    ensures { result ≡ class_in (table_view table.now) }
{
    let word = text_at(table, "class")?;
    let expand = bool_or(table, "expand", true)?;
    class_named(word, expand, value_at(table, "neighbour"))
}

// Who connects, with the values of `from` and `connect`, of which at most one is there.
fn comes_of(from: Option<&Value>, connect: Option<&Value>) -> Option<Comes>
    ensures { result ≡ comes_of_values (option_map (λ v. view v.now) from.entry) (option_map (λ v. view v.now) connect.entry) }
{
    match from {
        Some(value) => match connect {
            Some(_) => None,
            None => Some(Comes::From(addr_in(value)?)),
        },
        None => match connect {
            Some(value) => Some(Comes::Dialled(addr_in(value)?)),
            None => Some(Comes::Anyone),
        },
    }
}

fn comes_at(table: &Table) -> Option<Comes>
    ensures { result ≡ comes_in (table_view table.now) }
{
    comes_of(value_at(table, "from"), value_at(table, "connect"))
}

impl Formed for PeerRow {
    ghost use Rattle.plant_text.specs.SettingsText.{peer_form};

    ghost form = { peer_form };

    fn is_key(key: &str) -> bool {
        is_one_of(
            key,
            &[
                "name",
                "as",
                "class",
                "neighbour",
                "port",
                "expand",
                "down",
                "from",
                "connect",
            ],
        )
    }

    #[tactic(auto, unfolding(crate::specs::SettingsText::peer_of))]
    fn read(alloc: Global, table: &Table) -> Result<PeerRow, LineError> {
        let Some(name) = text_at(table, "name") else {
            return Err(LineError::Outside);
        };
        let Some(at) = as_at(table, "as") else {
            return Err(LineError::Outside);
        };
        let Some(class) = class_at(table) else {
            return Err(LineError::Outside);
        };
        let Some(port) = whole_or(table, "port", u64::from(u16::MAX), u64::from(PORT)) else {
            return Err(LineError::Outside);
        };
        let Some(comes) = comes_at(table) else {
            return Err(LineError::Outside);
        };
        let Some(down) = bool_or(table, "down", false) else {
            return Err(LineError::Outside);
        };
        Ok(PeerRow {
            name: Text::copy_of(alloc, name)?,
            at,
            class,
            port: port as u16,
            comes,
            down,
            patience: None,
            pending: None,
            keys: None,
            capability: false,
        })
    }

    fn wrong(_table: &Table) -> Breach {
        Breach::Shape
    }
}

// ---- rows of policy

impl Formed for DenyRow {
    ghost use Rattle.plant_text.specs.SettingsText.{deny_form};

    ghost form = { deny_form };

    fn is_key(key: &str) -> bool {
        is_one_of(key, &["at", "from", "next"])
    }

    #[tactic(auto, unfolding(crate::specs::SettingsText::deny_of))]
    fn read(_alloc: Global, table: &Table) -> Result<DenyRow, LineError> {
        let Some(at) = as_at(table, "at") else {
            return Err(LineError::Outside);
        };
        let Some(from) = as_at(table, "from") else {
            return Err(LineError::Outside);
        };
        let Some(next) = as_at(table, "next") else {
            return Err(LineError::Outside);
        };
        Ok(DenyRow {
            at,
            deny: Deny { from, next },
        })
    }

    fn wrong(_table: &Table) -> Breach {
        Breach::Shape
    }
}

// ---- links of the parent

/// The nodes and the addresses of a link.
#[derive(Clone, Copy)]
pub struct Ends {
    pub from: Addr,
    pub to: Addr,
    pub near: Addr,
    pub far: Addr,
}

#[tactic(auto, unfolding(crate::specs::SettingsText::ends_in))]
fn ends_of(table: &Table) -> Option<Ends>
    ensures { result ≡ ends_in (table_view table.now) }
{
    let from = addr_at(table, "from")?;
    let to = addr_at(table, "to")?;
    let near = addr_at(table, "near")?;
    let far = addr_at(table, "far")?;
    Some(Ends {
        from,
        to,
        near,
        far,
    })
}

#[tactic(auto, unfolding(crate::specs::SettingsText::link_in))]
fn link_of(alloc: Global, table: &Table) -> Result<Link, LineError>
    ensures { Gives result (link_in (table_view table.now)) }
{
    let Some(ends) = ends_of(table) else {
        return Err(LineError::Outside);
    };
    let Some(igp) = whole_at(table, "igp", u64::from(u32::MAX)) else {
        return Err(LineError::Outside);
    };
    let Some(te) = whole_at(table, "te", u64::from(u32::MAX)) else {
        return Err(LineError::Outside);
    };
    let Some(bytes_per_second) = whole_at(table, "bw", u64::MAX) else {
        return Err(LineError::Outside);
    };
    let Some(colour) = colour_at(table, "colour") else {
        return Err(LineError::Outside);
    };
    let srlgs = numbers_or_none(alloc, table, "srlg")?;
    Ok(Link {
        from: ends.from,
        to: ends.to,
        near: ends.near,
        far: ends.far,
        igp: igp as u32,
        te: te as u32,
        bytes_per_second,
        colour,
        srlgs,
    })
}

impl Formed for ParentLink {
    ghost use Rattle.plant_text.specs.SettingsText.{parent_link_form};

    ghost form = { parent_link_form };

    fn is_key(key: &str) -> bool {
        is_one_of(
            key,
            &[
                "from_as", "from", "to_as", "to", "near", "far", "igp", "te", "bw", "colour",
                "srlg",
            ],
        )
    }

    #[tactic(auto, unfolding(crate::specs::SettingsText::parent_link_of))]
    fn read(alloc: Global, table: &Table) -> Result<ParentLink, LineError> {
        let Some(from_as) = as_at(table, "from_as") else {
            return Err(LineError::Outside);
        };
        let Some(to_as) = as_at(table, "to_as") else {
            return Err(LineError::Outside);
        };
        let link = link_of(alloc, table)?;
        Ok(ParentLink {
            from_as,
            to_as,
            link,
        })
    }

    fn wrong(table: &Table) -> Breach {
        if has_many_groups(table) {
            Breach::TooMany
        } else {
            Breach::Shape
        }
    }
}

fn is_long(items: &[Value]) -> bool
    ensures { result ≡ nat_lt SRLGS_MAX (item_count (items_view items.now)) }
{
    items.len() > SRLGS_MAX
}

#[tactic(auto, using(crate::proofs::DocumentLaws::many_items))]
fn is_long_list(value: &Value) -> bool
    ensures { result ≡ has_many (Some (view value.now)) }
{
    match value.as_array() {
        Some(items) => is_long(items.as_slice()),
        None => false,
    }
}

// Whether a list of shared risk groups is too long, whatever its items are.
fn has_many_groups(table: &Table) -> bool
    ensures { result ≡ has_many (get_member (codes "srlg") (table_view table.now)) }
{
    match value_at(table, "srlg") {
        Some(value) => is_long_list(value),
        None => false,
    }
}
