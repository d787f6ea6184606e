//! The authors of a sequence, each once.
ghost use Rattle.std.specs.Prelude.{◌≡◌, ◌<◌, ◌⊎◌, [], ◌∷◌, ◌++◌, false, length, IfOk, IfSome, IsNone};
ghost use Rattle.std.specs.List.{AllByRecursion, IsDistinct};
ghost use Rattle.pad_model.specs.Visible.{same_author};
ghost use Rattle.block_seq.specs.Plain.{author_at};

use pad_model::Author;
use std::alloc::AllocError;

/// Returns the index of an author in the list, if it is there.
fn find_author(authors: &[Author], author: &Author) -> Option<usize>
    ensures found { IfSome result (λ i. (i < length authors.now)
        × (author_at authors.now i ≡ author.now)) }
    ensures missing { IsNone result → AllByRecursion (λ known. same_author known author.now ≡ false)
        authors.now }
{
    for place in 0..authors.len() {
        if authors[place] == *author {
            return Some(place);
        }
    }
    None
}

/// The place of an author, who joins the list where it is new.
pub fn place_author(authors: &mut Vec<Author>, author: &Author) -> Result<usize, AllocError>
    ensures place { IfOk result (λ i. (i < length authors.new.items)
        × (author_at authors.new.items i ≡ author.now)) }
    ensures more { (authors.new.items ≡ authors.old.items)
        ⊎ (authors.new.items ≡ authors.old.items ++ author.now ∷ []) }
    ensures once { IsDistinct same_author authors.old.items
        → IsDistinct same_author authors.new.items }
{
    if let Some(place) = find_author(authors.as_slice(), author) {
        return Ok(place);
    }
    let place = authors.len();
    authors.push(author.clone()?)?;
    Ok(place)
}
