ghost use Rattle.std.specs.Prelude.{◌≡◌, IfOk};
ghost use Rattle.std.specs.Str.{chars};
ghost use Rattle.schema_syntax_tokens.specs.Quotes.{quoted};
ghost use Rattle.schema_build_errors.specs.CapturedTexts.{user_text, captured_text, captured_message};

use cedar_data::{CloneIn, Diagnostic, Label, Severity, Text, around, push_both};
use cedar_identifiers::{Name, NameText, UnreservedId};
use schema_syntax_tokens::push_quoted;
use std::alloc::{AllocError, Global};

/// The declaration of a namespace that uses the type `Action` of the empty namespace.
pub enum CapturedItem {
    /// The entity type of this name.
    EntityType(UnreservedId),
    /// The action with this id.
    Action(Text),
}

impl Drop for CapturedItem {
    fn drop(self) {
        match self {
            CapturedItem::EntityType(_value) => {}
            CapturedItem::Action(_value) => {}
        }
    }
}

impl CapturedItem {
    // What the declaration is called.
    fn user(&self, alloc: Global) -> Result<Text, AllocError>
        ensures { IfOk result (λ text. text ≡ user_text self.now) }
    {
        match self {
            CapturedItem::EntityType(id) => around(alloc, "entity type `", &id.id.text, "`"),
            CapturedItem::Action(id) => around(alloc, "action `", &quoted(alloc, id)?, "`"),
        }
    }
}

impl CloneIn for CapturedItem {
    fn clone_in(&self, alloc: Global) -> Result<Self, AllocError> {
        match self {
            CapturedItem::EntityType(id) => Ok(CapturedItem::EntityType(id.clone_in(alloc)?)),
            CapturedItem::Action(id) => Ok(CapturedItem::Action(id.clone_in(alloc)?)),
        }
    }
}

/// A schema that cannot be printed: something in a named namespace that has actions speaks of the type `Action` of
/// the empty namespace, which would be read there as the type of the namespace's own actions.
pub struct ReferenceCaptured {
    /// The namespace.
    pub namespace: Name,
    /// The first declaration in it, in the order of the walk, that uses the type.
    pub item: CapturedItem,
}

impl Drop for ReferenceCaptured {
    fn drop(self) {
        let ReferenceCaptured {
            namespace: _namespace,
            item: _item,
        } = self;
    }
}

impl Diagnostic for ReferenceCaptured {
    ghost text = { captured_text };

    fn text(&self, alloc: Global) -> Result<Text, AllocError> {
        let namespace = self.namespace.text(alloc)?;
        let user = self.item.user(alloc)?;
        captured_message(alloc, &namespace, &user)
    }

    fn help(&self, _alloc: Global, _source: &str) -> Result<Option<Text>, AllocError> {
        Ok(None)
    }

    fn labels(&self, alloc: Global) -> Result<Vec<Label>, AllocError> {
        Ok(Vec::new(alloc))
    }

    fn severity(&self) -> Severity {
        Severity::Error
    }
}

impl CloneIn for ReferenceCaptured {
    fn clone_in(&self, alloc: Global) -> Result<Self, AllocError> {
        Ok(ReferenceCaptured {
            namespace: self.namespace.clone_in(alloc)?,
            item: self.item.clone_in(alloc)?,
        })
    }
}

// What is said of a namespace and of the declaration in it.
fn captured_message(alloc: Global, namespace: &Text, user: &Text) -> Result<Text, AllocError>
    ensures { IfOk result (λ text. text ≡ captured_message namespace.now user.now) }
{
    let before = "the type `Action` of the empty namespace is used in namespace `";
    let mut text = around(alloc, before, namespace, "` by ")?;
    push_both(&mut text, user, ", where it would be read as `")?;
    push_both(&mut text, namespace, "::Action`")?;
    Ok(text)
}

// The text as a string of a schema.
fn quoted(alloc: Global, text: &Text) -> Result<Text, AllocError>
    ensures { IfOk result (λ string. string ≡ chars (quoted text.now)) }
{
    let mut string = Text::new(alloc);
    push_quoted(&mut string, text.as_str())?;
    Ok(string)
}
