ghost use Rattle.std.specs.Prelude.{◌≡◌, map, IfOk};
ghost use Rattle.cedar_identifiers.specs.Names.{name_text};

use cedar_data::{NonEmpty, Text};
use cedar_identifiers::NameText;
use std::alloc::{AllocError, Global};

/// The texts of the names, in order.
pub fn name_texts<N: NameText>(alloc: Global, names: &NonEmpty<N>) -> Result<Vec<Text>, AllocError>
    ensures { IfOk result (λ texts. texts.items ≡ map (λ n. name_text (N.components n)) names.now) }
{
    let mut texts = Vec::new(alloc);
    for name in names.iter() {
        texts.push(name.text(alloc)?)?;
    }
    Ok(texts)
}
