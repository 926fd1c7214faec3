ghost use Rattle.std.specs.Prelude.{◌≡◌, ◌<◌, ◌≤◌, ◌++◌, true, decimal, IfOk, OnOk};
ghost use Rattle.std.specs.Char.{is_ascii};
ghost use Rattle.std.specs.List.{list_all};
ghost use Rattle.std.specs.Str.{IsAscii};
ghost use Rattle.schema_generate.specs.Generated.{max_size, parent_part, entity_line, action_line, generated};

use cedar_data::Text;
use itoa::Buffer;
use std::alloc::{AllocError, Global};

/// The most entity types that a text is made with.
pub const MAX_SIZE: u32 = 4096;

// Adds an ASCII wording.
fn push_words(text: &mut Text, wording: &str) -> Result<(), AllocError>
    requires { list_all is_ascii wording.now ≡ true }
    ensures { OnOk result (text.new ≡ text.old ++ wording.now) }
{
    text.push_str(wording)
}

// Adds the name of this letter and this number.
fn push_name(text: &mut Text, letter: &str, number: u32) -> Result<(), AllocError>
    requires { list_all is_ascii letter.now ≡ true }
    ensures { OnOk result (text.new ≡ text.old ++ (letter.now ++ decimal number)) }
{
    let mut buffer = Buffer::new();
    push_words(text, letter)?;
    text.push_str(buffer.format(number))
}

// Adds the parent of the entity type of this number, where it has one.
fn push_parent(text: &mut Text, i: u32) -> Result<(), AllocError>
    ensures { OnOk result (text.new ≡ text.old ++ parent_part i) }
{
    if i == 0 {
        return Ok(());
    }
    push_words(text, " in ")?;
    push_name(text, "E", i / 2)
}

// Adds the line of the entity type of this number.
fn push_entity(text: &mut Text, n: u32, i: u32) -> Result<(), AllocError>
    requires within { i < n }
    requires size { n ≤ max_size }
    ensures { OnOk result (text.new ≡ text.old ++ entity_line n i) }
{
    push_words(text, "entity ")?;
    push_name(text, "E", i)?;
    push_parent(text, i)?;
    push_words(text, " = { a: Long, b: ")?;
    push_name(text, "E", (7 * i + 3) % n)?;
    push_words(text, " };\n")
}

// Adds the line of the action of this number.
fn push_action(text: &mut Text, n: u32, i: u32) -> Result<(), AllocError>
    requires within { i < n }
    requires size { n ≤ max_size }
    ensures { OnOk result (text.new ≡ text.old ++ action_line n i) }
{
    push_words(text, "action ")?;
    push_name(text, "a", i)?;
    push_words(text, " appliesTo { principal: ")?;
    push_name(text, "E", i)?;
    push_words(text, ", resource: ")?;
    push_name(text, "E", (5 * i + 1) % n)?;
    push_words(text, " };\n")
}

/// The text with so many entity types and as many actions: from 1 to 4,096 of each.
pub fn generate_text(alloc: Global, n: u32) -> Result<Text, AllocError>
    requires some { 1 ≤ n }
    requires size { n ≤ max_size }
    ensures text { IfOk result (λ text. text ≡ generated n) }
    ensures ascii { OnOk result (IsAscii (generated n)) }
{
    let mut text = Text::new(alloc);
    for i in 0..n {
        push_entity(&mut text, n, i)?;
        push_action(&mut text, n, i)?;
    }
    Ok(text)
}
