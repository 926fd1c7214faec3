// The names of a fragment that may be written in a role.

ghost use Rattle.std.specs.Prelude.{◌≡◌, ◌↔◌, ◌++◌, IfOk, OnOk, List, ℕ};
ghost use Rattle.std.specs.List.{Contains};
ghost use Rattle.std.specs.List.Sorted.{IsStrictlySortedBy};
ghost use Rattle.std.specs.Option.{option_copied};
ghost use Rattle.cedar_data.specs.Text.{text_cmp};
ghost use Rattle.schema_resolve_lookup.specs.Sought.{namespace_words};
ghost use Rattle.schema_assist_offers.specs.Homes.{IsHome, question};
ghost use Rattle.schema_assist_offers.specs.Offers.{offers, Completes};
ghost use Rattle.schema_assist_offers.specs.Spellings.{all_spelled, spelled_in, words_in, IsWordOrNothing};

use crate::actions::push_actions;
use crate::asked::Asked;
use crate::homes::{Home, home_of};
use crate::words::{push_action_type, push_commons, push_entities};
use cedar_data::Text;
use cedar_identifiers::{InternalName, Name, RawName, ReferenceType};
use cedar_names::ExtensionTable;
use schema_assist_places::Role;
use schema_json::{Fragment, NamespaceDefinition};
use schema_resolve_lookup::FragmentDefs;
use std::alloc::{AllocError, Global};

// Adds the types that a namespace declares, each as it is spelled.
fn push_types(
    alloc: Global,
    names: &mut Vec<Text>,
    asked: &Asked<'_, '_>,
    home: &Home<'_>,
    definition: &NamespaceDefinition<RawName>,
) -> Result<(), AllocError>
    ensures { (before : List (List ℕ)) → IsHome (question asked.now).ns (question asked.now).front before home.now
        → OnOk result (names.new.items ≡ names.old.items
        ++ spelled_in (question asked.now) Role.TypePath before definition.now) }
{
    let kind = ReferenceType::CommonOrEntity;
    push_entities(alloc, names, asked, kind, home, &definition.entity_types)?;
    push_commons(alloc, names, asked, kind, home, &definition.common_types)?;
    push_action_type(alloc, names, asked, home, &definition.actions)
}

// Adds what a namespace declares for the role, each as it is spelled.
fn push_declared(
    alloc: Global,
    names: &mut Vec<Text>,
    asked: &Asked<'_, '_>,
    role: Role,
    home: &Home<'_>,
    definition: &NamespaceDefinition<RawName>,
) -> Result<(), AllocError>
    requires { IsWordOrNothing asked.now.front.now }
    ensures { (before : List (List ℕ)) → IsHome (question asked.now).ns (question asked.now).front before home.now
        → OnOk result (names.new.items ≡ names.old.items
        ++ spelled_in (question asked.now) role before definition.now) }
{
    match role {
        Role::TypePath => push_types(alloc, names, asked, home, definition),
        Role::EntityPath => {
            let entities = &definition.entity_types;
            push_entities(alloc, names, asked, ReferenceType::Entity, home, entities)
        }
        Role::ContextPath => {
            let commons = &definition.common_types;
            push_commons(alloc, names, asked, ReferenceType::Common, home, commons)
        }
        Role::ActionRef => push_actions(alloc, names, asked, home, &definition.actions),
    }
}

// Adds what a namespace declares for the role, each as it is spelled.
fn push_namespace(
    alloc: Global,
    names: &mut Vec<Text>,
    asked: &Asked<'_, '_>,
    role: Role,
    ns: &Option<Name>,
    definition: &NamespaceDefinition<RawName>,
) -> Result<(), AllocError>
    requires { IsWordOrNothing asked.now.front.now }
    ensures { OnOk result (names.new.items ≡ names.old.items
        ++ spelled_in (question asked.now) role (namespace_words ns.now) definition.now) }
{
    let home = home_of(alloc, asked, ns)?;
    push_declared(alloc, names, asked, role, &home, definition)
}

// What the fragment declares for the role, as it is spelled.
fn gather(
    alloc: Global,
    asked: &Asked<'_, '_>,
    role: Role,
    known: &Fragment<RawName>,
) -> Result<Vec<Text>, AllocError>
    requires { IsWordOrNothing asked.now.front.now }
    ensures { IfOk result (λ names. names.items ≡ all_spelled (question asked.now) role known.now) }
{
    let mut names = Vec::new(alloc);
    for (ns, definition) in known.0.as_slice() {
        push_namespace(alloc, &mut names, asked, role, ns, definition)?;
    }
    Ok(names)
}

// Puts the names in order, each once.
fn sort_once(names: &mut Vec<Text>)
    ensures rising { IsStrictlySortedBy text_cmp names.new.items }
    ensures same { (s : List ℕ) → (Contains names.new.items s ↔ Contains names.old.items s) }
{
    names.sort_unstable();
    names.dedup();
}

/// The names of the fragment that may be written in the role inside a namespace, as they are spelled there: those that
/// begin with a word, or all where that is empty. They rise, and each stands once. No namespace is the empty one.
pub fn offers(
    alloc: Global,
    known: &Fragment<RawName>,
    table: &ExtensionTable,
    role: Role,
    ns: Option<&InternalName>,
    front: &str,
) -> Result<Vec<Text>, AllocError>
    requires { IsWordOrNothing front.now }
    ensures rising { IfOk result (λ names. IsStrictlySortedBy text_cmp names.items) }
    ensures offered { IfOk result (λ names. (s : List ℕ) → (Contains names.items s
        ↔ (offers known.now table.now role (words_in (option_copied ns.entry)) s × Completes s front.now))) }
{
    let defs = FragmentDefs::new(alloc, known, table)?;
    let asked = Asked {
        defs: &defs,
        ns,
        front,
    };
    let mut names = gather(alloc, &asked, role, known)?;
    sort_once(&mut names);
    Ok(names)
}
