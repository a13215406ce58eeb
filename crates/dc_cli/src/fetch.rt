//! The texts of the files that words name.
ghost use Rattle.std.specs.Prelude.{◌≡◌, ◌^◌, ◌-◌, ◌<◌, ◌≤◌, [], ◌∷◌, IfOk, IfErr};
ghost use Rattle.dc_answers.specs.Outside.{file, source_limit, visit_of};
ghost use Rattle.dc_cli.specs.Fetched.{IsFetched, IsUnfetched, IsUnreadOf};

use dc_answers::Refusal;
use dc_host::{Store, StoreFault};
use std::alloc::{AllocError, Global};

const SOURCE_LIMIT: usize = 65536;

/// The texts of two versions.
#[derive(Debug, Drop)]
pub struct Texts {
    pub new: Vec<u8>,
    pub old: Vec<u8>,
}

/// The texts of two sources, the new one before the old one.
pub fn fetch_sources<S: Store>(
    alloc: Global,
    store: &mut S,
    new: &str,
    old: &str,
) -> Result<Texts, Refusal>
    ensures files { S.files store.new ≡ S.files store.old }
    ensures later { S.faults store.old ≤ S.faults store.new }
    ensures ok { IfOk result (λ t. IsFetched (visit_of S.files S.faults S.call store.old store.new)
        (file new.now source_limit ∷ file old.now source_limit ∷ []) (t.new.items ∷ t.old.items ∷
        [])) }
    ensures refused { IfErr result (IsUnfetched (visit_of S.files S.faults S.call store.old
        store.new) (file new.now source_limit ∷ file old.now source_limit ∷ [])) }
{
    let new = fetch_text(alloc, store, new, SOURCE_LIMIT)?;
    let old = fetch_text(alloc, store, old, SOURCE_LIMIT)?;
    Ok(Texts { new, old })
}

/// The text of a file, with one byte more than it may have where it is longer.
pub fn fetch_text<S: Store>(
    alloc: Global,
    store: &mut S,
    name: &str,
    limit: usize,
) -> Result<Vec<u8>, Refusal>
    requires { limit < 2 ^ 64 - 1 }
    ensures files { S.files store.new ≡ S.files store.old }
    ensures later { S.faults store.old ≤ S.faults store.new }
    ensures ok { IfOk result (λ v. IsFetched (visit_of S.files S.faults S.call store.old store.new)
        (file name.now limit ∷ []) (v.items ∷ [])) }
    ensures refused { IfErr result (IsUnfetched (visit_of S.files S.faults S.call store.old
        store.new) (file name.now limit ∷ [])) }
{
    match store.fetch(alloc, name, limit) {
        Ok(bytes) => Ok(bytes),
        Err(StoreFault::NoMemory) => Err(Refusal::NoMemory),
        Err(StoreFault::Missing) => Err(unread(alloc, name)),
        Err(StoreFault::Failed) => Err(unread(alloc, name)),
    }
}

/// The refusal of a file that was not handed out.
fn unread(alloc: Global, name: &str) -> Refusal
    ensures { IsUnreadOf name.now result }
{
    match String::from_str(alloc, name) {
        Ok(name) => Refusal::Unread(name),
        Err(AllocError) => Refusal::NoMemory,
    }
}
