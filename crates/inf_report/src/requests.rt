//! How requests are printed.

ghost use Rattle.std.specs.Prelude.{◌≡◌, ◌++◌, OnOk, codes};
ghost use Rattle.inf_report.specs.Identifiers.{chain_text, dir_text, home_text};
ghost use Rattle.inf_report.specs.Numbers.{mode_text};
ghost use Rattle.inf_report.specs.Requests.{aim_text, op_text, request_text, what_text};

use crate::calls::{errno_word, push_word};
use crate::identifiers::{
    push_behind, push_chain, push_dir, push_home, push_id, push_key, push_look_key, push_triple,
};
use crate::numbers::{push_meta, push_mode, push_next_number};
use inf_base::{Chain, DirRef, Home, Name, NoMemory};
use inf_message::{Aim, Op, Request, What};

/// A space and a name.
fn push_name(out: &mut Vec<u8>, name: &Name) -> Result<(), NoMemory>
    ensures { OnOk result (out.new.items ≡ out.old.items ++ codes " " ++ name.now) }
{
    push_behind(out, b" ", name.as_slice())
}

/// A space and a mode.
fn push_next_mode(out: &mut Vec<u8>, mode: u16) -> Result<(), NoMemory>
    ensures { OnOk result (out.new.items ≡ out.old.items ++ codes " " ++ mode_text mode) }
{
    out.extend_from_slice(b" ")?;
    push_mode(out, mode)
}

fn push_op(out: &mut Vec<u8>, op: &Op) -> Result<(), NoMemory>
    ensures { OnOk result (out.new.items ≡ out.old.items ++ op_text op.now) }
{
    match op {
        Op::Refuse(error) => push_behind(out, b"refuse ", errno_word(*error)),
        Op::StatTop => push_word(out, b"stat-top"),
        Op::Walk(name) => push_behind(out, b"walk ", name.as_slice()),
        Op::Create(name, mode) => {
            push_behind(out, b"create ", name.as_slice())?;
            push_next_mode(out, *mode)
        }
        Op::Stat(name) => push_behind(out, b"stat ", name.as_slice()),
        Op::Unlink(name) => push_behind(out, b"unlink ", name.as_slice()),
        Op::Truncate(name, length) => {
            push_behind(out, b"truncate ", name.as_slice())?;
            push_next_number(out, *length)
        }
        Op::Chmod(name, mode) => {
            push_behind(out, b"chmod ", name.as_slice())?;
            push_next_mode(out, *mode)
        }
        Op::Move(old, new) => {
            push_behind(out, b"move ", old.as_slice())?;
            push_name(out, new)
        }
        Op::ListName(name) => push_behind(out, b"list-name ", name.as_slice()),
        Op::RmdirName(name) => push_behind(out, b"rmdir-name ", name.as_slice()),
        Op::List => push_word(out, b"list"),
    }
}

fn push_what(out: &mut Vec<u8>, what: &What) -> Result<(), NoMemory>
    ensures { OnOk result (out.new.items ≡ out.old.items ++ what_text what.now) }
{
    match what {
        What::File(name) => push_behind(out, b"file ", name.as_slice()),
        What::Leave => push_word(out, b"leave"),
        What::Mode(mode) => {
            out.extend_from_slice(b"mode ")?;
            push_mode(out, *mode)
        }
    }
}

fn push_aim(out: &mut Vec<u8>, aim: &Aim) -> Result<(), NoMemory>
    ensures { OnOk result (out.new.items ≡ out.old.items ++ aim_text aim.now) }
{
    match aim {
        Aim::Stop(name) => push_behind(out, b"stop ", name.as_slice()),
        Aim::At(name) => push_behind(out, b"at ", name.as_slice()),
    }
}

fn push_on_dir(out: &mut Vec<u8>, word: &[u8], dir: &DirRef) -> Result<(), NoMemory>
    ensures { OnOk result (out.new.items ≡ out.old.items ++ word.now ++ dir_text dir.now) }
{
    out.extend_from_slice(word)?;
    push_dir(out, dir)
}

fn push_on_chain(out: &mut Vec<u8>, word: &[u8], chain: &Chain) -> Result<(), NoMemory>
    ensures { OnOk result (out.new.items ≡ out.old.items ++ word.now ++ chain_text chain.now) }
{
    out.extend_from_slice(word)?;
    push_chain(out, chain)
}

fn push_on_home(out: &mut Vec<u8>, word: &[u8], home: &Home) -> Result<(), NoMemory>
    ensures { OnOk result (out.new.items ≡ out.old.items ++ word.now ++ home_text home.now) }
{
    out.extend_from_slice(word)?;
    push_home(out, home)
}

/// A word, and the two chains and the aim of a rename.
fn push_rename(
    out: &mut Vec<u8>,
    word: &[u8],
    old: &Chain,
    new: &Chain,
    aim: &Aim,
) -> Result<(), NoMemory>
    ensures { OnOk result (out.new.items ≡ out.old.items ++ word.now ++ chain_text old.now
        ++ codes " " ++ chain_text new.now ++ codes " " ++ aim_text aim.now) }
{
    push_on_chain(out, word, old)?;
    push_on_chain(out, b" ", new)?;
    out.extend_from_slice(b" ")?;
    push_aim(out, aim)
}

fn push_admit(out: &mut Vec<u8>, dir: &DirRef, old: &Chain, new: &Chain) -> Result<(), NoMemory>
    ensures { OnOk result (out.new.items ≡ out.old.items ++ codes "admit " ++ dir_text dir.now
        ++ codes " " ++ chain_text old.now ++ codes " " ++ chain_text new.now) }
{
    push_on_dir(out, b"admit ", dir)?;
    push_on_chain(out, b" ", old)?;
    push_on_chain(out, b" ", new)
}

pub fn push_request(out: &mut Vec<u8>, request: &Request) -> Result<(), NoMemory>
    ensures { OnOk result (out.new.items ≡ out.old.items ++ request_text request.now) }
{
    match request {
        Request::Lookup(key) => {
            out.extend_from_slice(b"lookup ")?;
            push_look_key(out, key)
        }
        Request::Finish { chain, op } => {
            push_on_chain(out, b"finish ", chain)?;
            out.extend_from_slice(b" ")?;
            push_op(out, op)
        }
        Request::Reserve { chain, name } => {
            push_on_chain(out, b"reserve ", chain)?;
            push_name(out, name)
        }
        Request::Make { triple } => {
            out.extend_from_slice(b"make ")?;
            push_triple(out, triple)
        }
        Request::Link {
            chain,
            name,
            dir,
            mode,
        } => {
            push_on_chain(out, b"link ", chain)?;
            push_name(out, name)?;
            push_on_dir(out, b" ", dir)?;
            push_next_mode(out, *mode)
        }
        Request::Cancel { dir } => push_on_dir(out, b"cancel ", dir),
        Request::Drop { dir } => push_on_dir(out, b"drop ", dir),
        Request::Seal { chain } => push_on_chain(out, b"seal ", chain),
        Request::Unseal { dir } => push_on_dir(out, b"unseal ", dir),
        Request::Unlink { chain } => push_on_chain(out, b"unlink ", chain),
        Request::Forget { parent, dir } => {
            out.extend_from_slice(b"forget ")?;
            push_id(out, parent)?;
            push_on_dir(out, b" ", dir)
        }
        Request::Hold { chain, what } => {
            push_on_chain(out, b"hold ", chain)?;
            out.extend_from_slice(b" ")?;
            push_what(out, what)
        }
        Request::Unhold { home } => push_on_home(out, b"unhold ", home),
        Request::Prepare { old, new, aim } => push_rename(out, b"prepare ", old, new, aim),
        Request::Put {
            old,
            new,
            aim,
            meta,
        } => {
            push_rename(out, b"put ", old, new, aim)?;
            out.extend_from_slice(b" ")?;
            push_meta(out, meta)
        }
        Request::Commit { home } => push_on_home(out, b"commit ", home),
        Request::Erase { dir } => push_on_dir(out, b"erase ", dir),
        Request::Mark { key, hold } => {
            out.extend_from_slice(b"mark ")?;
            push_key(out, key)?;
            push_next_number(out, *hold)
        }
        Request::Release => push_word(out, b"release"),
        Request::Unmark => push_word(out, b"unmark"),
        Request::Admit { dir, old, new } => push_admit(out, dir, old, new),
        Request::Quit => push_word(out, b"quit"),
    }
}
