ghost use Rattle.std.specs.Prelude.{◌≡◌, true, Some, None, IfOk, IfErr};
ghost use Rattle.std.specs.Option.{option_copied, option_map};
ghost use Rattle.cedar_identifiers.specs.Names.{components_of, has_cedar};
ghost use Rattle.cedar_identifiers.specs.Candidates.{qualified};
ghost use Rattle.schema_json.specs.Actions.{action_name, written_type, type_text, action_uid_text};

use crate::action_type::ActionEntityUID;
use crate::reserved::ReservedNameError;
use crate::typed_name::TypedName;
use cedar_data::{List, Text};
use cedar_identifiers::{Eid, Id, InternalName, Name, NameText, RawName};
use cedar_names::EntityUID;
use schema_syntax_tokens::push_quoted;
use std::alloc::{AllocError, Global};

impl<N: NameText> ActionEntityUID<N> {
    /// The reference to the action with this type and this id.
    pub fn with_type(ty: N, id: Text) -> ActionEntityUID<N>
        ensures id { result.id ≡ id }
        ensures ty { result.ty ≡ Some ty }
    {
        ActionEntityUID { id, ty: Some(ty) }
    }

    /// The type as it is written, or `Action` where none is, then `::`, and the id as a string.
    pub fn text(&self, alloc: Global) -> Result<Text, AllocError>
        ensures { IfOk result (λ text. text ≡ action_uid_text (option_map N.components self.now.ty) self.now.id) }
    {
        let mut text = type_text(&self.ty, alloc)?;
        text.push_str("::")?;
        push_quoted(&mut text, self.id.as_str())?;
        Ok(text)
    }
}

// The text of a type, or `Action` where there is none.
fn type_text<N: NameText>(ty: &Option<N>, alloc: Global) -> Result<Text, AllocError>
    ensures { IfOk result (λ text. text ≡ type_text (option_map N.components ty.now)) }
{
    match ty {
        Some(ty) => ty.text(alloc),
        None => Text::from_str(alloc, "Action"),
    }
}

impl<N: TypedName> ActionEntityUID<N> {
    /// The action's type, which is always there.
    pub fn ty(&self) -> &N
        ensures { self.now.ty ≡ Some result.now }
    {
        match &self.ty {
            Some(ty) => ty,
            None => unreachable!(),
        }
    }

    /// The action's type, which is always there, and its id.
    pub fn into_parts(self) -> (N, Text)
        ensures ty { self.ty ≡ Some result.0 }
        ensures id { result.1 ≡ self.id }
    {
        let ActionEntityUID { id, ty } = self;
        match ty {
            Some(ty) => (ty, id),
            None => unreachable!(),
        }
    }
}

/// The name `Action`, without a place.
pub fn action_name(alloc: Global) -> Result<InternalName, AllocError>
    ensures { IfOk result (λ name. name ≡ action_name) }
{
    let text = Text::from_str(alloc, "Action")?;
    Ok(InternalName {
        first: Id { text },
        others: List::new(alloc),
        loc: None,
    })
}

impl ActionEntityUID<RawName> {
    /// The reference to the action with this id, and with this type where one is written.
    pub fn new(ty: Option<RawName>, id: Text) -> ActionEntityUID<RawName>
        ensures id { result.id ≡ id }
        ensures ty { result.ty ≡ ty }
    {
        ActionEntityUID { id, ty }
    }

    /// The reference to the action with this id, written without a type.
    pub fn default_type(id: Text) -> ActionEntityUID<RawName>
        ensures id { result.id ≡ id }
        ensures ty { result.ty ≡ None }
    {
        ActionEntityUID { id, ty: None }
    }

    /// The reference with its type in this namespace. Where no type is written it is `Action`.
    pub fn qualify_with(
        self,
        alloc: Global,
        ns: Option<&InternalName>,
    ) -> Result<ActionEntityUID<InternalName>, AllocError>
        ensures id { IfOk result (λ action. action.id ≡ self.id) }
        ensures ty { IfOk result (λ action. action.ty
            ≡ Some (qualified (option_copied ns.entry) (written_type self.ty))) }
    {
        let ActionEntityUID { id, ty } = self;
        let written = written_type(alloc, ty)?;
        Ok(ActionEntityUID::with_type(written.qualify_with(alloc, ns)?, id))
    }
}

// The type as it is written, and `Action` where none is.
fn written_type(alloc: Global, ty: Option<RawName>) -> Result<InternalName, AllocError>
    ensures { IfOk result (λ name. name ≡ written_type ty) }
{
    match ty {
        Some(ty) => Ok(ty.into_internal()),
        None => action_name(alloc),
    }
}

impl ActionEntityUID<Name> {
    /// The action as an entity, without a place of its own. The type keeps its place.
    pub fn into_euid(self) -> EntityUID
        ensures ty { self.ty ≡ Some result.ty }
        ensures id { result.eid.0 ≡ self.id }
        ensures placeless { result.loc ≡ None }
    {
        let (ty, id) = self.into_parts();
        EntityUID {
            ty,
            eid: Eid(id),
            loc: None,
        }
    }

    /// The entity as an action. The type keeps its place.
    pub fn from_euid(uid: EntityUID) -> ActionEntityUID<Name>
        ensures id { result.id ≡ uid.eid.0 }
        ensures ty { result.ty ≡ Some uid.ty }
    {
        let (ty, Eid(id)) = uid.components();
        ActionEntityUID::with_type(ty, id)
    }
}

impl ActionEntityUID<InternalName> {
    /// The action as an entity, without a place of its own, refused with the type where a component of that is
    /// `__cedar`. The type keeps its place.
    pub fn try_into_euid(self) -> Result<EntityUID, ReservedNameError>
        ensures ty { IfOk result (λ uid. self.ty ≡ Some uid.ty.name) }
        ensures id { IfOk result (λ uid. uid.eid.0 ≡ self.id) }
        ensures placeless { IfOk result (λ uid. uid.loc ≡ None) }
        ensures err { IfErr result (λ error. (self.ty ≡ Some error.name)
            × (has_cedar (components_of error.name) ≡ true)) }
    {
        let (name, id) = self.into_parts();
        if name.has_cedar() {
            return Err(ReservedNameError { name });
        }
        Ok(EntityUID {
            ty: Name { name },
            eid: Eid(id),
            loc: None,
        })
    }
}
