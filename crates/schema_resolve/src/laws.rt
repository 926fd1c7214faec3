//! Laws of what references mean, whatever tests say what is defined. Each law is what its function ensures; the
//! functions do nothing.
ghost use Rattle.std.specs.Prelude.{Option};
ghost use Rattle.cedar_identifiers.specs.declared.conditional_name.ConditionalName.{ConditionalName};
ghost use Rattle.cedar_identifiers.specs.declared.internal_name.InternalName.{InternalName};
ghost use Rattle.cedar_identifiers.specs.declared.raw_name.RawName.{RawName};
ghost use Rattle.cedar_identifiers.specs.declared.reference_type.ReferenceType.{ReferenceType};
ghost use Rattle.schema_resolve_definitions.specs.Tests.{Tests};
ghost use Rattle.schema_resolve.specs.MeaningLaws.{TargetIsFirst, TargetIsOne, ResolvesWhatIsMeant};
ghost use Rattle.schema_resolve.specs.FirstCandidate.{OwnThenPlain, ItselfOrNothing};

/// An unqualified name in a namespace means what is defined there, and else what is defined in the empty namespace,
/// each in the kind that is asked for.
pub fn own_namespace_first()
    ensures { (t : Tests) (ns : InternalName) (kind : ReferenceType) (name : RawName) → OwnThenPlain t ns kind name }
{}

/// A qualified name means itself or nothing, and so does any name in the empty namespace.
pub fn itself_or_nothing()
    ensures { (t : Tests) (ns : Option InternalName) (kind : ReferenceType) (name : RawName)
        → ItselfOrNothing t ns kind name }
{}

/// A reference has at most one target: the first candidate that is defined in the kind that is asked for.
pub fn one_target()
    ensures found { (t : Tests) (reference : ConditionalName) → TargetIsFirst t reference }
    ensures one { (t : Tests) (reference : ConditionalName) → TargetIsOne t reference }
{}

/// A reference is resolved to what it means: the name is that of what is meant, and a reference that may mean a common
/// type or an entity type becomes one to the kind that is meant.
pub fn resolves_what_is_meant()
    ensures { (t : Tests) (ns : Option InternalName) (kind : ReferenceType) (name : RawName)
        → ResolvesWhatIsMeant t ns kind name }
{}
