// Where names are declared, as seen from a place.

ghost use Rattle.std.specs.Prelude.{◌≡◌, ◌∷◌, ◌++◌, [], IfOk};
ghost use Rattle.std.specs.Option.{option_copied};
ghost use Rattle.cedar_identifiers.specs.Names.{components_of};
ghost use Rattle.cedar_names.specs.Definitions.{same_name};
ghost use Rattle.schema_resolve_definitions.specs.Tests.{tests_of};
ghost use Rattle.schema_resolve_lookup.specs.Sought.{namespace_words};
ghost use Rattle.schema_resolve_targets.specs.Targets.{is_defined};
ghost use Rattle.schema_assist_offers.specs.Spellings.{words_in, IsWordOrNothing};
ghost use Rattle.schema_assist_offers.specs.Homes.{IsHome};

use crate::asked::{Asked, begins};
use cedar_data::Text;
use cedar_identifiers::laws::names_go_by_components;
use cedar_identifiers::{Id, InternalName, Name, NameText, ReferenceType};
use schema_resolve_lookup::FragmentDefs;
use std::alloc::{AllocError, Global};

// Where names are declared.
#[derive(Drop)]
pub(crate) enum Home<'d> {
    // In the namespace around the place.
    Own,
    // In the empty namespace, and around the place is this one.
    Outer(&'d InternalName),
    // In another namespace, whose text, with `::` behind it, is this and begins as is asked.
    Other(Text),
    // In another namespace, whose text does not begin as is asked.
    Unlike,
}

// Whether the names are the same.
fn is_same_name(home: &InternalName, ns: &InternalName) -> bool
    ensures { result ≡ same_name (components_of home.now) (components_of ns.now) }
{
    names_go_by_components(home, ns);
    *home == *ns
}

// Whether the namespaces are the same.
fn is_same(home: &Option<Name>, ns: Option<&InternalName>) -> bool
    ensures { result ≡ same_name (namespace_words home.now) (words_in (option_copied ns.entry)) }
{
    match home {
        None => match ns {
            None => true,
            Some(_) => false,
        },
        Some(home) => match ns {
            None => false,
            Some(ns) => is_same_name(&home.name, ns),
        },
    }
}

// Where the names of a namespace are declared.
pub(crate) fn home_of<'d>(
    alloc: Global,
    asked: &Asked<'d, '_>,
    ns: &Option<Name>,
) -> Result<Home<'d>, AllocError>
    requires { IsWordOrNothing asked.now.front.now }
    ensures { IfOk result (λ home. IsHome (words_in (option_copied asked.now.ns)) asked.now.front.now
        (namespace_words ns.now) home) }
{
    if is_same(ns, asked.ns) {
        return Ok(Home::Own);
    }
    match ns {
        None => match asked.ns {
            None => Ok(Home::Own),
            Some(around) => Ok(Home::Outer(around)),
        },
        Some(ns) => {
            if !begins(ns.name.first.as_str(), asked.front) {
                return Ok(Home::Unlike);
            }
            let mut text = ns.text(alloc)?;
            text.push_str("::")?;
            Ok(Home::Other(text))
        }
    }
}

// Whether a name of the kind is defined that ends in the word and stands in the namespace.
pub(crate) fn is_defined_behind(
    defs: &FragmentDefs<'_>,
    kind: ReferenceType,
    ns: &InternalName,
    word: &Id,
) -> bool
    ensures { result ≡ is_defined (tests_of defs.now) kind (components_of ns.now ++ word.now.text ∷ []) }
{
    match kind {
        ReferenceType::Common => defs.is_defined_as_common_behind(ns, word),
        ReferenceType::Entity => defs.is_defined_as_entity_behind(ns, word),
        ReferenceType::CommonOrEntity => {
            defs.is_defined_as_common_behind(ns, word) || defs.is_defined_as_entity_behind(ns, word)
        }
    }
}
