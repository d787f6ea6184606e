//! A table of authors, each once.
ghost use Rattle.std.specs.Prelude.{◌≡◌, ◌≢◌, ℕ, ◌<◌, ◌⊎◌, [], ◌∷◌, ◌++◌, length, IfOk, IfSome, IfNone};
ghost use Rattle.authorship.specs.StoredRuns.{author_in, IsOnce};

use pad_model::{Author, Name};
use std::alloc::{AllocError, Global};

/// The place of an author in a table, if it is there.
fn find_author(table: &[Author], author: &Author) -> Option<usize>
    ensures found { IfSome result (λ i. (i < length table.now)
        × (author_in table.now i ≡ author.now)) }
    ensures missing { IfNone result ((i : ℕ) → i < length table.now
        → author_in table.now i ≢ author.now) }
{
    for (place, known) in table.iter().enumerate() {
        if known == author {
            return Some(place);
        }
    }
    None
}

/// The place of an author, who is added to the table if new.
pub fn place_author(
    table: &mut Vec<Author>,
    alloc: Global,
    author: &Author,
) -> Result<usize, AllocError>
    requires { IsOnce table.old.items }
    ensures place { IfOk result (λ i. (i < length table.new.items)
        × (author_in table.new.items i ≡ author.now)) }
    ensures more { (table.new.items ≡ table.old.items)
        ⊎ (table.new.items ≡ table.old.items ++ author.now ∷ []) }
    ensures once { IsOnce table.new.items }
{
    if let Some(place) = find_author(table.as_slice(), author) {
        return Ok(place);
    }
    let place = table.len();
    let name = Name::from_str(alloc, author.name.as_str())?;
    table.push(Author {
        name,
        origin: author.origin,
    })?;
    Ok(place)
}
