//! The page that says which numbers a server had before.
ghost use Rattle.std.specs.Prelude.{◌≡◌, ◌∷◌, ◌++◌, [], IfOk};
ghost use Rattle.web_wire.specs.declared.page.Page.{Page};

use std::alloc::{AllocError, Global};
use std::str;
use web_wire::Page;

/// The pages of a server, and after them the one at `/earlier-numbers`. Its texts live as long as the program.
pub fn with_numbers(alloc: Global, pages: &[Page], numbers: &[u16]) -> Result<Vec<Page>, AllocError>
    ensures { IfOk result (λ all. (page : Page) × (all.items ≡ pages.now ++ page ∷ [])) }
{
    let mut all = Vec::new(alloc);
    all.extend_from_slice(pages)?;
    all.push(numbers_page(alloc, numbers)?)?;
    Ok(all)
}

// The page at `/earlier-numbers`: these numbers as JSON. No browser keeps a copy of it.
fn numbers_page(alloc: Global, numbers: &[u16]) -> Result<Page, AllocError> {
    let list = list_of(alloc, numbers)?;
    let list = list.as_str();
    Ok(Page {
        path: "/earlier-numbers",
        kind: "application/json",
        cache: "no-store",
        tag: kept_text(format!(in alloc; "\"{list}\"")?)?,
        text: kept_text(format!(in alloc; "{{\"numbers\":[{list}]}}")?)?,
    })
}

// Numbers with commas between them.
fn list_of(alloc: Global, numbers: &[u16]) -> Result<String, AllocError> {
    let mut list = String::new(alloc);
    for number in numbers {
        if !list.is_empty() {
            list.push(',')?;
        }
        let digits = format!(in alloc; "{number}")?;
        list.push_str(digits.as_str())?;
    }
    Ok(list)
}

// A text that lives as long as the program.
fn kept_text(text: String) -> Result<&'static str, AllocError> {
    match str::from_utf8(text.into_bytes().leak()) {
        Ok(text) => Ok(text),
        Err(_) => Err(AllocError),
    }
}
