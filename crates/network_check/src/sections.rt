//! The tables of settings: how their rows begin, what a row is called, and which keys it may have.
ghost use Rattle.std.specs.Prelude.{◌≡◌, map};
ghost use Rattle.network_check.specs.Sections.{called, column, columns_of, header_of as header_in};

use crate::fields::{DENIAL, ELEMENT, Field, LINK, PARENT, PARENT_LINK, PEER, TOP};

/// A table of settings, or the keys beside the tables.
#[derive(Clone, Copy)]
pub enum Section {
    Elements,
    Links,
    Peers,
    Denials,
    Parent,
    ParentLinks,
    /// The keys beside the tables.
    Top,
}

/// The header of a row; none for the keys beside the tables.
pub(crate) fn header_of(section: Section) -> &'static [u8]
    ensures { result.now ≡ header_in section }
{
    match section {
        Section::Elements => b"[[element]]",
        Section::Links => b"[[link]]",
        Section::Peers => b"[[peer]]",
        Section::Denials => b"[[deny]]",
        Section::Parent => b"[parent]",
        Section::ParentLinks => b"[[parent.link]]",
        Section::Top => b"",
    }
}

/// What a row is called.
pub(crate) fn name_of(section: Section) -> &'static str
    ensures { result.now ≡ called section }
{
    match section {
        Section::Elements => "element",
        Section::Links => "link",
        Section::Peers => "peer",
        Section::Denials => "deny",
        Section::Parent => "parent",
        Section::ParentLinks => "parent.link",
        Section::Top => "settings",
    }
}

/// The keys that a row may have.
pub(crate) fn fields_of(section: Section) -> &'static [Field]
    ensures { map column result.now ≡ columns_of section }
{
    match section {
        Section::Elements => &ELEMENT,
        Section::Links => &LINK,
        Section::Peers => &PEER,
        Section::Denials => &DENIAL,
        Section::Parent => &PARENT,
        Section::ParentLinks => &PARENT_LINK,
        Section::Top => &TOP,
    }
}
