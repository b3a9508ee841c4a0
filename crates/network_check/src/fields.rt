//! The keys that the rows of settings may have.
ghost use Rattle.std.specs.Prelude.{◌≡◌};
ghost use Rattle.network_check.specs.Sections.{column};

use crate::kinds::Kind;
use plant_text::{KEY_LIFE_MAX, WORKERS_MAX};
use te_links::METRIC_MAX;

/// A key that a row must have, or may have.
#[derive(Clone, Copy)]
pub enum Field {
    Must(&'static str, Kind),
    May(&'static str, Kind),
}

const DOMAIN: Kind = Kind::Whole(1, 65_535);

const PORT: Kind = Kind::Whole(1, 65_535);

const METRIC: Kind = Kind::Whole(1, METRIC_MAX as u64);

/// The keys of an element.
pub(crate) const ELEMENT: [Field; 5] = [
    Field::Must("as", DOMAIN),
    Field::Must("id", Kind::Address),
    Field::May("topology", Kind::Text),
    Field::May("key_life", Kind::Whole(1, KEY_LIFE_MAX as u64)),
    Field::May("parent", Kind::Flag),
];

/// The keys of a link between elements.
pub(crate) const LINK: [Field; 2] = [Field::Must("a", DOMAIN), Field::Must("b", DOMAIN)];

/// The keys of an outside peer.
pub(crate) const PEER: [Field; 9] = [
    Field::Must("name", Kind::Name),
    Field::Must("as", DOMAIN),
    Field::Must("class", Kind::Class),
    Field::May("neighbour", DOMAIN),
    Field::May("port", PORT),
    Field::May("from", Kind::Address),
    Field::May("connect", Kind::Address),
    Field::May("expand", Kind::Flag),
    Field::May("down", Kind::Flag),
];

/// The keys of a row of policy.
pub(crate) const DENIAL: [Field; 3] = [
    Field::Must("at", DOMAIN),
    Field::Must("from", Kind::Whole(0, 65_535)),
    Field::Must("next", DOMAIN),
];

/// The keys of the parent.
pub(crate) const PARENT: [Field; 2] = [
    Field::Must("id", Kind::Address),
    Field::May("link", Kind::Rows),
];

/// The keys of a link that the parent knows.
pub(crate) const PARENT_LINK: [Field; 11] = [
    Field::Must("from_as", DOMAIN),
    Field::Must("from", Kind::Fourth),
    Field::Must("to_as", DOMAIN),
    Field::Must("to", Kind::Fourth),
    Field::Must("near", Kind::Fourth),
    Field::Must("far", Kind::Fourth),
    Field::Must("igp", METRIC),
    Field::Must("te", METRIC),
    Field::Must("bw", Kind::Whole(0, u64::MAX)),
    Field::Must("colour", Kind::Colour),
    Field::May("srlg", Kind::Numbers),
];

/// The tables, and the keys beside them.
pub(crate) const TOP: [Field; 7] = [
    Field::May("element", Kind::Rows),
    Field::May("link", Kind::Rows),
    Field::May("peer", Kind::Rows),
    Field::May("deny", Kind::Rows),
    Field::May("parent", Kind::Rows),
    Field::May("workers", Kind::Whole(1, WORKERS_MAX as u64)),
    Field::May("watch", PORT),
];

pub(crate) fn key_of(field: &Field) -> &'static str
    ensures { result.now ≡ (column field.now).key }
{
    match field {
        Field::Must(key, _) => key,
        Field::May(key, _) => key,
    }
}

pub(crate) fn kind_of(field: &Field) -> Kind
    ensures { result ≡ (column field.now).kind }
{
    match field {
        Field::Must(_, kind) => *kind,
        Field::May(_, kind) => *kind,
    }
}
