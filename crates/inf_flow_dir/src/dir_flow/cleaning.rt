//! What is cleaned up behind a flow.

ghost use Rattle.std.specs.Prelude.{◌≡◌, ◌∷◌, [], Some};
ghost use Rattle.inf_message.specs.CleanUp.{one_by_one};
ghost use Rattle.inf_message.specs.declared.request.Request.TheVariants as request;
ghost use Rattle.inf_message.specs.Chain.{last_dir};
ghost use Rattle.inf_message.specs.Who.{lift};
ghost use Rattle.inf_flow_dir.specs.DirFlow.{after_unlink, clean_up, lives_at, row_of};

use super::DirFlow;
use inf_base::{DirRef, Entry, Id, Key, Triple};
use inf_message::{CleanUp, CleanUps, Lift, Who, dir_of, last_dir, way_to};

impl DirFlow {
    /// What is cleaned up where the next group does not succeed, or is not sent for want of memory.
    pub fn clean_up(&self, who: &Who) -> CleanUps
        ensures { result ≡ clean_up who.now self.now }
    {
        match self {
            DirFlow::Reserves { .. } | DirFlow::Seals(_) => CleanUps::none(),
            DirFlow::Makes { chain, .. } => CleanUps::one(cancel(who, chain.as_slice())),
            DirFlow::Links { chain, dir, .. } => {
                CleanUps::two(drops(who, *dir), cancel(who, chain.as_slice()))
            }
            DirFlow::Unlinks(chain) => CleanUps::one(unseal(who, chain.as_slice())),
        }
    }
}

/// Gives the name back that was kept in the directory that the chain leads to.
pub fn cancel(who: &Who, chain: &[Entry]) -> CleanUp
    ensures { result ≡ lift who.now (last_dir chain.now) request.Cancel ∷ [] }
{
    let dir = last_dir(chain);
    CleanUp::to(who, &dir.id, Lift::Cancel(dir))
}

/// Takes the content of a directory.
pub fn drops(who: &Who, dir: DirRef) -> CleanUp
    ensures { result ≡ lift who.now dir request.Drop ∷ [] }
{
    CleanUp::to(who, &dir.id, Lift::Drop(dir))
}

/// Opens the directory again that the chain leads to.
pub fn unseal(who: &Who, chain: &[Entry]) -> CleanUp
    ensures { result ≡ lift who.now (last_dir chain.now) request.Unseal ∷ [] }
{
    let dir = last_dir(chain);
    CleanUp::to(who, &dir.id, Lift::Unseal(dir))
}

/// Whether a directory lives where it was born.
fn lives_at(parent: &Id, key: &Key, birth: &Triple) -> bool
    ensures { result ≡ lives_at parent.now key.now birth.now }
{
    match birth {
        Triple::Root => false,
        Triple::Of {
            parent: born_in,
            name,
            ..
        } => match key {
            Key::Top => false,
            Key::At { name: here, .. } => parent.bytes == born_in.bytes && here == name,
        },
    }
}

/// What follows the unlinking of the directory that the chain leads to: its content goes, and the row of its birth
/// place, if it had left that.
pub fn after_unlink(who: &Who, chain: &[Entry]) -> CleanUps
    ensures { result ≡ after_unlink who.now chain.now }
{
    let parent = who.last_id(way_to(chain));
    let content = drops(who, last_dir(chain));
    match chain.last() {
        Some(entry) => with_row(who, content, &parent, entry),
        None => CleanUps::one(content),
    }
}

fn with_row(who: &Who, content: CleanUp, parent: &Id, entry: &Entry) -> CleanUps
    ensures { result ≡ content ∷ one_by_one (row_of who.now parent.now (Some entry.now)) }
{
    let access = &entry.access;
    if lives_at(parent, &entry.key, &access.birth) {
        return CleanUps::one(content);
    }
    match &access.birth {
        Triple::Root => CleanUps::one(content),
        Triple::Of { parent, .. } => CleanUps::two(
            content,
            CleanUp::to(who, parent, Lift::Forget(*parent, dir_of(access))),
        ),
    }
}
