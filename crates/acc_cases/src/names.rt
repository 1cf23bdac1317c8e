//! The names of a folder's cases.

ghost use Rattle.std.specs.Prelude.{◌≡◌, ◌≢◌, ◌++◌, ℕ, List, Some, IfOk, IfSome, IfNone, bytes_eq, map, option_map, string_bytes};
ghost use Rattle.std.specs.List.{list_any};
ghost use Rattle.acc_cases.specs.Cases.{ending_of};
ghost use Rattle.acc_cases.specs.Names.{AreCases, is_name, is_of};

use crate::fault::Kind;
use std::alloc::{AllocError, Global};

// What stands before the ending of a kind, if that is there.
fn without_ending(file: &str, kind: Kind) -> Option<&str>
    ensures found { IfSome result (λ name. file.now ≡ name.now ++ ending_of kind) }
    ensures none { IfNone result ((name : List ℕ) → file.now ≢ name ++ ending_of kind) }
{
    file.strip_suffix(kind.ending())
}

// The name of the case that a file is of.
#[tactic(auto, using(crate::proofs::CaseNames::no_case))]
fn case_of(file: &str) -> Option<&str>
    ensures { (name : List ℕ)
        → is_of name file.now ≡ is_name name (option_map (λ n. n.now) result) }
{
    if let Some(name) = without_ending(file, Kind::Script) {
        return Some(name);
    }
    if let Some(name) = without_ending(file, Kind::Schedule) {
        return Some(name);
    }
    if let Some(name) = without_ending(file, Kind::Line) {
        return Some(name);
    }
    if let Some(name) = without_ending(file, Kind::Report) {
        return Some(name);
    }
    None
}

// The names of the cases that files are of, each once, in their order.
pub(crate) fn names_of<'a>(alloc: Global, files: &'a [String]) -> Result<Vec<&'a str>, AllocError>
    ensures { IfOk result (λ names.
        AreCases (map string_bytes files.now) (map (λ n. n.now) names.items)) }
{
    let mut names = cases_of(alloc, files)?;
    names.sort_unstable();
    names.dedup();
    Ok(names)
}

// The name of the case of each file that is of one.
fn cases_of<'a>(alloc: Global, files: &'a [String]) -> Result<Vec<&'a str>, AllocError>
    ensures { IfOk result (λ names. (name : List ℕ)
        → list_any (λ n. bytes_eq name n.now) names.items
        ≡ list_any (λ f. is_of name (string_bytes f)) files.now) }
{
    let mut names = Vec::new(alloc);
    for file in files {
        if let Some(name) = case_of(file.as_str()) {
            names.push(name)?;
        }
    }
    Ok(names)
}
