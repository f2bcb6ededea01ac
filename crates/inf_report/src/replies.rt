//! How replies are printed.

ghost use Rattle.std.specs.Prelude.{◌≡◌, ◌++◌, OnOk, codes};
ghost use Rattle.std.specs.Fmt.{decimal};
ghost use Rattle.inf_report.specs.Replies.{reply_text, spot_text};

use crate::calls::{push_listing, push_ref, push_refused, push_stat, push_word};
use crate::identifiers::{push_access, push_key, push_triple};
use crate::numbers::{push_meta, push_next_number, push_number, push_positions};
use inf_base::{ClientLine, NoMemory};
use inf_message::{Reply, Spot};

/// A word and a number behind it.
fn push_counted(out: &mut Vec<u8>, word: &[u8], number: u64) -> Result<(), NoMemory>
    ensures { OnOk result (out.new.items ≡ out.old.items ++ word.now ++ decimal number) }
{
    out.extend_from_slice(word)?;
    push_number(out, number)
}

fn push_spot(out: &mut Vec<u8>, spot: Spot) -> Result<(), NoMemory>
    ensures { OnOk result (out.new.items ≡ out.old.items ++ spot_text spot) }
{
    match spot {
        Spot::Carried(position) => push_counted(out, b"carried ", u64::from(position)),
        Spot::Slot => push_word(out, b"slot"),
        Spot::Inside => push_word(out, b"inside"),
        Spot::Sealed => push_word(out, b"sealed"),
        Spot::Bearer => push_word(out, b"bearer"),
        Spot::Change => push_word(out, b"change"),
    }
}

pub fn push_reply(out: &mut Vec<u8>, clients: &[ClientLine], reply: &Reply) -> Result<(), NoMemory>
    ensures { OnOk result (out.new.items ≡ out.old.items ++ reply_text clients.now reply.now) }
{
    match reply {
        Reply::Found { key, access } => {
            out.extend_from_slice(b"found ")?;
            push_key(out, key)?;
            out.extend_from_slice(b" ")?;
            push_access(out, access)
        }
        Reply::Absent { born } => push_counted(out, b"absent ", *born),
        Reply::IsFile { born } => push_counted(out, b"file ", *born),
        Reply::NoDir => push_word(out, b"nodir"),
        Reply::Gone => push_word(out, b"gone"),
        Reply::Stale(hits) => {
            out.extend_from_slice(b"stale ")?;
            push_positions(out, *hits)
        }
        Reply::Busy { by, spot, born } => {
            out.extend_from_slice(b"busy ")?;
            push_ref(out, clients, *by)?;
            out.extend_from_slice(b" ")?;
            push_spot(out, *spot)?;
            push_next_number(out, *born)
        }
        Reply::Other => push_word(out, b"other"),
        Reply::NoMem => push_word(out, b"nomem"),
        Reply::Reserved(version) => push_counted(out, b"reserved ", *version),
        Reply::Held(meta) => {
            out.extend_from_slice(b"held ")?;
            push_meta(out, meta)
        }
        Reply::Clash(kept) => {
            out.extend_from_slice(b"clash ")?;
            push_triple(out, kept)
        }
        Reply::Fine => push_word(out, b"fine"),
        Reply::Refused(error) => push_refused(out, *error),
        Reply::Stat { kind, meta } => push_stat(out, *kind, meta),
        Reply::Listing(items) => push_listing(out, items),
    }
}
